// The requests that are sent, and what a peer puts into them.
use std::fmt;

// The version of GET_VERSION, and those that a peer can speak.
pub const VERSION_10: u8 = 0x10;

pub const VERSION_11: u8 = 0x11;

pub const VERSION_12: u8 = 0x12;

const HEADER: usize = 4;

const NONCE: usize = 32;

// A header and a nonce.
const CHALLENGE: usize = 36;

const GET_CERTIFICATE: usize = 8;

// The requests, each with its code.
#[derive(Clone, Copy)]
pub enum Request {
    Digests = 0x81,
    Certificate = 0x82,
    Challenge = 0x83,
    Version = 0x84,
    Capabilities = 0xE1,
    Algorithms = 0xE3,
}

impl Request {
    pub fn code(self) -> u8 {
        self as u8
    }
}

impl fmt::Display for Request {
    fn fmt<W: fmt::Write>(&self, f: &mut fmt::Formatter<W>) -> fmt::Result {
        let name = match self {
            Request::Digests => "GET_DIGESTS",
            Request::Certificate => "GET_CERTIFICATE",
            Request::Challenge => "CHALLENGE",
            Request::Version => "GET_VERSION",
            Request::Capabilities => "GET_CAPABILITIES",
            Request::Algorithms => "NEGOTIATE_ALGORITHMS",
        };
        write!(f, "{name}")
    }
}

// What a peer's requests have in them: the version that it speaks, the slot, and CHALLENGE's Param2.
#[derive(Clone, Copy)]
pub struct Peer {
    pub version: u8,
    pub slot: u8,
    pub summary: u8,
}

impl Peer {
    // The peer that speaks a version, with the first slot and no summary.
    pub fn new(version: u8) -> Self {
        Peer {
            version,
            slot: 0,
            summary: 0,
        }
    }

    pub fn challenge(self, nonce: &[u8; NONCE]) -> [u8; CHALLENGE] {
        let code = Request::Challenge.code();
        let mut bytes = [0; CHALLENGE];
        bytes[..HEADER].copy_from_slice(&[self.version, code, self.slot, self.summary]);
        bytes[HEADER..].copy_from_slice(nonce);
        bytes
    }

    // For so many bytes of the slot's chain, from an offset on.
    pub fn get_certificate(self, offset: u16, length: u16) -> [u8; GET_CERTIFICATE] {
        let code = Request::Certificate.code();
        let [from_low, from_high] = offset.to_le_bytes();
        let [low, high] = length.to_le_bytes();
        [
            self.version,
            code,
            self.slot,
            0,
            from_low,
            from_high,
            low,
            high,
        ]
    }
}
