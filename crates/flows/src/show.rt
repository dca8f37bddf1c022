// How bytes are printed: in hex, shortened where they are many, or as how many there are with their CRC-32.
use std::fmt;

// So many bytes are shown of those that have more.
const SHOWN: usize = 36;

// The polynomial of IEEE 802.3, lowest bit first.
const POLYNOMIAL: u32 = 0xEDB8_8320;

// One bit further: the remainder's lowest bit goes out.
fn step(crc: u32) -> u32 {
    if crc % 2 == 0 {
        crc / 2
    } else {
        (crc / 2) ^ POLYNOMIAL
    }
}

fn next(crc: u32, byte: u8) -> u32 {
    (0..u8::BITS).fold(crc ^ u32::from(byte), |rest, _| step(rest))
}

fn crc32(bytes: &[u8]) -> u32 {
    !bytes.iter().fold(u32::MAX, |crc, &byte| next(crc, byte))
}

// How many bytes there are, and their CRC-32.
#[derive(Clone, Copy)]
pub struct Sum<'a>(pub &'a [u8]);

impl fmt::Display for Sum<'_> {
    fn fmt<W: fmt::Write>(&self, f: &mut fmt::Formatter<W>) -> fmt::Result {
        let Sum(bytes) = *self;
        write!(f, "{} bytes, CRC-32 {:08x}", bytes.len(), crc32(bytes))
    }
}

// Bytes in hex; of many, the first, and the sum of all. The programs share no crate: one for these lines and the sum would be no plainer.
#[derive(Clone, Copy)]
pub struct Hex<'a>(pub &'a [u8]);

impl fmt::Display for Hex<'_> {
    fn fmt<W: fmt::Write>(&self, f: &mut fmt::Formatter<W>) -> fmt::Result {
        let Hex(bytes) = *self;
        if bytes.is_empty() {
            return write!(f, "-");
        }
        for byte in bytes.iter().take(SHOWN) {
            write!(f, "{byte:02x}")?;
        }
        if SHOWN < bytes.len() {
            write!(f, ".. ({})", Sum(bytes))?;
        }
        Ok(())
    }
}
