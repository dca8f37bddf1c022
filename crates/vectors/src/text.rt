// What comes out of a line, as the vectors write it.
use std::fmt::Write;
use std::{fmt, str};

// Room for what comes out of a line.
const TEXT: usize = 131200;

// Room for so many bytes, and how many there are.
#[derive(Drop)]
pub struct Room<const N: usize> {
    bytes: [u8; N],
    length: usize,
}

pub type Text = Room<TEXT>;

impl<const N: usize> Room<N> {
    pub fn new() -> Self {
        Room {
            bytes: [0; N],
            length: 0,
        }
    }

    pub fn as_slice(&self) -> &[u8] {
        wire::part_of(&self.bytes, 0, self.length)
    }

    // Bytes more; none of them where there is no room for all, and false.
    pub fn push(&mut self, bytes: &[u8]) -> bool {
        let end = self.length.saturating_add(bytes.len());
        if N < end {
            return false;
        }
        wire::copy_into(&mut self.bytes, self.length, bytes);
        self.length = end;
        true
    }

    // What is printed of a value, from a place on: all bytes up to its end.
    pub fn put(&mut self, at: usize, value: impl fmt::Display + Drop) -> &[u8] {
        self.length = at;
        let _ = write!(self, "{value}");
        self.as_slice()
    }
}

impl<const N: usize> fmt::Write for Room<N> {
    fn write_str(&mut self, s: &str) -> fmt::Result {
        if self.push(s.as_bytes()) {
            Ok(())
        } else {
            Err(fmt::Error)
        }
    }
}

// The polynomial of IEEE 802.3, lowest bit first.
const POLYNOMIAL: u32 = 0xEDB88320;

const DIGITS: [u8; 16] = *b"0123456789abcdef";

// So many bytes are put at once: byte by byte it takes half as long again.
const AT_ONCE: usize = 64;

// Bytes in hex, a single '-' for none. The programs share no crate: one for these lines and the sum would be no plainer.
#[derive(Clone, Copy)]
pub struct Hex<'a>(pub &'a [u8]);

impl fmt::Display for Hex<'_> {
    fn fmt<W: fmt::Write>(&self, f: &mut fmt::Formatter<W>) -> fmt::Result {
        if self.0.is_empty() {
            return write!(f, "-");
        }
        for bytes in self.0.chunks(AT_ONCE) {
            let mut digits = [0u8; 2 * AT_ONCE];
            for (pair, byte) in digits.chunks_mut(2).zip(bytes) {
                if let [high, low] = pair {
                    *high = DIGITS[usize::from(*byte >> 4)];
                    *low = DIGITS[usize::from(*byte % 16)];
                }
            }
            let put = wire::part_of(&digits, 0, bytes.len().saturating_mul(2));
            f.write_str(str::from_utf8(put).unwrap_or(""))?;
        }
        Ok(())
    }
}

// One bit further: the remainder's lowest goes out.
fn step(crc: u32) -> u32 {
    if crc % 2 == 1 {
        (crc >> 1) ^ POLYNOMIAL
    } else {
        crc >> 1
    }
}

pub fn crc32(bytes: &[u8]) -> u32 {
    !bytes.iter().fold(u32::MAX, |crc, &byte| {
        (0..8).fold(crc ^ u32::from(byte), |crc, _| step(crc))
    })
}

// A word that the vectors do not have, where a byte is changed that is to stay as it was.
pub fn mark(changed: bool) -> &'static str {
    if changed { " changed" } else { "" }
}

// The word, where a byte from a place on is not as it was before.
pub fn changed(before: &[u8], after: &[u8], from: usize) -> &'static str {
    mark(before.iter().skip(from).ne(after.iter().skip(from)))
}
