// The images that the flows run on, put together record by record, each in a lent room. All have CTExponent 14, SHA-256 and P-256.
use crate::room::Room;

// Room for the longest of them.
pub const IMAGE: usize = 18000;

// The bytes of the longest chain, of the shortest, and of what a chain starts with: its own length and two reserved bytes.
pub const LONGEST: u16 = 16384;

const SHORTEST: u16 = 37;

const CHAIN_HEAD: u16 = 4;

// What a chain's record has beside the chain: the slot and a digest.
const SLOT_AND_DIGEST: u16 = 33;

const DIGEST: u16 = 32;

// An image in a lent room, up to the record that was put last.
#[derive(Drop)]
struct Records<'a> {
    bytes: Room<'a>,
}

impl<'a> Records<'a> {
    // The version, and the record of kind 1.
    fn new(room: &'a mut [u8; IMAGE]) -> Self {
        let mut bytes = Room::new(room);
        bytes.put(b"\x01\x00\x03\x01\x0E\x00\x04");
        Records { bytes }
    }

    // Bytes that go up by one, modulo 256.
    fn put_rising(&mut self, first: u8, count: u16) {
        for step in 0..count {
            self.bytes.put(&[first.wrapping_add((step % 256) as u8)]);
        }
    }

    // A record of kind 2: a slot with a chain of so many bytes.
    fn put_chain(&mut self, slot: u8, length: u16) {
        let [high, low] = length.wrapping_add(SLOT_AND_DIGEST).to_be_bytes();
        self.bytes.put(&[high, low, 2, slot]);
        self.put_rising(slot, DIGEST);
        let [low, high] = length.to_le_bytes();
        self.bytes.put(&[low, high, 0, 0]);
        self.put_rising(slot, length.saturating_sub(CHAIN_HEAD));
    }

    // A record of kind 3.
    fn put_measurement(&mut self, index: u8, kind: u8) {
        self.bytes.put(&[0, 34, 3, index, kind]);
        self.put_rising(index, DIGEST);
    }

    // The record of kind 4.
    fn put_summaries(&mut self) {
        self.bytes.put(b"\x00\x40\x04");
        self.put_rising(100, DIGEST);
        self.put_rising(150, DIGEST);
    }
}

// The image of the bench: slot 0 with L = 100, one measurement.
pub fn bench(room: &mut [u8; IMAGE]) -> &[u8] {
    let mut records = Records::new(room);
    records.put_chain(0, 100);
    records.put_measurement(1, 0);
    records.put_summaries();
    records.bytes.into_slice()
}

// Three slots, one of them with the longest chain, and three measurements.
pub fn full(room: &mut [u8; IMAGE]) -> &[u8] {
    let mut records = Records::new(room);
    records.put_chain(0, SHORTEST);
    records.put_chain(2, LONGEST);
    records.put_chain(7, 1024);
    records.put_measurement(1, 0);
    records.put_measurement(16, 3);
    records.put_measurement(239, 1);
    records.put_summaries();
    records.bytes.into_slice()
}

// The smallest image: slot 0 with the shortest chain.
pub fn smallest(room: &mut [u8; IMAGE]) -> &[u8] {
    let mut records = Records::new(room);
    records.put_chain(0, SHORTEST);
    records.bytes.into_slice()
}

// Slot 0 with the longest chain.
pub fn longest(room: &mut [u8; IMAGE]) -> &[u8] {
    let mut records = Records::new(room);
    records.put_chain(0, LONGEST);
    records.bytes.into_slice()
}
