// Reads a provisioning image on standard input and prints what it holds, or why the reader refuses it.
#![tactic(auto)]

ghost use Rattle.std.specs.Prelude.{◌≤◌, length};

use image::limits::{IMAGE_LIMIT, SLOT_LIMIT};
use image::{Fault, SlotNumber};
use image_lookup::Image;
use std::fmt;
use std::io::Read;

// One byte more than an image may have, so that too long an image is seen to be.
const MOST: usize = IMAGE_LIMIT + 1;

// The algorithms by their bit numbers in BaseHashAlgo and BaseAsymAlgo.
const HASHES: [&str; 6] = [
    "SHA-256", "SHA-384", "SHA-512", "SHA3-256", "SHA3-384", "SHA3-512",
];

const SIGNATURES: [&str; 9] = [
    "RSASSA-2048",
    "RSAPSS-2048",
    "RSASSA-3072",
    "RSAPSS-3072",
    "ECDSA-P256",
    "RSASSA-4096",
    "RSAPSS-4096",
    "ECDSA-P384",
    "ECDSA-P521",
];

// What a refusal means.
fn meaning(fault: Fault) -> &'static str {
    match fault {
        Fault::WrongSize => "image empty or over 61440 bytes",
        Fault::WrongVersion => "byte 0 is not 1",
        Fault::BrokenRecord => "1 or 2 bytes left for a record head, or body runs past the end",
        Fault::WrongKind => "kind unknown or out of sequence, or a needed record missing",
        Fault::TooMany => "a 9th chain or 33rd measurement",
        Fault::WrongLength => "body length wrong",
        Fault::WrongField => "a field out of range, slot or index not rising, or first slot not 0",
        Fault::WrongOwnLength => "chain's own length field differs",
    }
}

fn name(names: &[&'static str], bit: u8) -> &'static str {
    names.get(usize::from(bit)).copied().unwrap_or("unknown")
}

// Bytes in hex.
#[derive(Clone, Copy)]
struct Hex<'a>(&'a [u8]);

impl fmt::Display for Hex<'_> {
    fn fmt<W: fmt::Write>(&self, f: &mut fmt::Formatter<W>) -> fmt::Result {
        for byte in self.0 {
            write!(f, "{byte:02x}")?;
        }
        Ok(())
    }
}

// An accepted image.
#[derive(Clone, Copy)]
struct Contents<'a>(Image<'a>);

impl Contents<'_> {
    fn print_identity(&self, rt: &impl Print) {
        let id = self.0.index.identity;
        let _ = println!(rt; "CTExponent {}", id.exponent);
        let _ = println!(rt;
            "hash {} (bit {}, digests of {} bytes)",
            name(&HASHES, id.hash),
            id.hash,
            image::digest_size(id.hash)
        );
        let _ = println!(rt;
            "signature {} (bit {}, {} bytes)",
            name(&SIGNATURES, id.signature),
            id.signature,
            image::signature_size(id.signature)
        );
    }

    fn print_slots(&self, rt: &impl Print) {
        for k in 0..=SLOT_LIMIT {
            let Some(slot) = SlotNumber::new(k) else {
                continue;
            };
            let length = self.0.chain_length(slot);
            if length > 0 {
                let digest = Hex(self.0.digest(slot));
                let _ = println!(rt; "slot {k}: chain of {length} bytes, digest {digest}");
            }
        }
    }

    // A measurement is its index, its type and its digest.
    fn print_measurements(&self, rt: &impl Print) {
        for k in 0..usize::from(self.0.index.measurements) {
            if let [index, kind, digest @ ..] = self.0.nth_measurement(k) {
                let _ = println!(rt; "measurement {index}: type {kind}, digest {}", Hex(digest));
            }
        }
    }

    fn print(&self, rt: &impl Print) {
        self.print_identity(rt);
        self.print_slots(rt);
        if self.0.index.measurements == 0 {
            return;
        }
        self.print_measurements(rt);
        let _ = println!(rt; "summary of the TCB {}", Hex(self.0.tcb_summary()));
        let _ = println!(rt; "summary of all {}", Hex(self.0.full_summary()));
    }
}

// A line that cannot be written is let go, and the next is tried.
fn print_image(rt: &impl Print, bytes: &[u8]) {
    let length = bytes.len();
    let more = if length == MOST { " or more" } else { "" };
    let _ = print!(rt; "image of {length} bytes{more}");
    match image_reader::read_image(bytes) {
        Ok(index) => {
            let _ = rt.println(": accepted");
            Contents(Image { bytes, index }).print(rt);
        }
        Err(fault) => {
            let _ = println!(rt; "\nrefused: {} ({})", fault.number(), meaning(fault));
        }
    }
}

// Reads until the room is full, the input ends or a read fails, and answers how many bytes there are then. Not read_to_end: that asks for
// memory, which may run out, and for few bytes at a time.
fn read_full(stdin: &mut impl Read, room: &mut [u8]) -> usize
    ensures { result ≤ length room.new }
{
    let mut done = 0;
    while done < room.len() {
        let Ok(n) = stdin.read(&mut room[done..]) else {
            break;
        };
        if n == 0 {
            break;
        }
        done += n;
    }
    done
}

fn main(rt: HostRuntime) {
    let mut room = [0u8; MOST];
    let length = read_full(&mut rt.reader(), &mut room);
    print_image(&rt, &room[..length]);
}
