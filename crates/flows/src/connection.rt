// A connection of the bench: requests with their answers, each printed.
use crate::images::LONGEST;
use crate::request::{Peer, Request, VERSION_10, VERSION_11};
use crate::show::Hex;
use crate::signed::Signed;
use rules::{HostError, Outcome, State};

// The buffers that are lent.
const TRANSCRIPT: usize = 36864;

const ANSWER: usize = 4608;

const NONCE: [u8; 32] = *b"the responder's nonce, 32 bytes.";

const SIGNATURE: [u8; 64] = *b"the chip's signature of 64 bytes, which is a pattern for a test.";

// GET_CAPABILITIES, but for its version: both sizes are 4,608.
const CAPABILITIES: [u8; 20] =
    *b"\x00\xE1\x00\x00\x00\x00\x00\x00\x00\x00\x00\x00\x00\x12\x00\x00\x00\x12\x00\x00";

// Under 1.1 it ends before the sizes.
const CAPABILITIES_11: usize = 12;

// NEGOTIATE_ALGORITHMS, but for its version: the DMTF's measurement specification, P-256 and SHA-256.
const OFFER: [u8; 32] =
    *b"\x00\xE3\x00\x00\x20\x00\x01\x00\x10\x00\x00\x00\x01\x00\x00\x00\x00\x00\x00\x00\x00\x00\x00\x00\x00\x00\x00\x00\x00\x00\x00\x00";

const REQUESTER_NONCE: [u8; 32] = *b"the requester's nonce, 32 bytes.";

// The code of the answer to GET_CERTIFICATE, and where it has the length of the remainder.
const CERTIFICATE: u8 = 0x02;

const REMAINDER_AT: usize = 6;

// Where DIGESTS has the mask of its slots.
const SLOT_MASK_AT: usize = 3;

// A portion of a chain has at most so many bytes.
const PORTION: usize = 1024;

// Whether nothing is left to read behind an answer: it is no CERTIFICATE, or its remainder is 0.
pub fn is_last(answer: &[u8]) -> bool {
    wire::byte_at(answer, 1) != CERTIFICATE || wire::get_u16le(answer, REMAINDER_AT) == 0
}

// A requester's connection to the responder with an image; what is said goes to `rt`.
#[derive(Drop)]
pub struct Connection<'a, P: Print> {
    rt: &'a P,
    image: &'a [u8],
    state: State,
    transcript: [u8; TRANSCRIPT],
    answer: [u8; ANSWER],
}

impl<'a, P: Print> Connection<'a, P> {
    // A fresh one, on which nothing was said.
    pub fn new(rt: &'a P, image: &'a [u8]) -> Self {
        Connection {
            rt,
            image,
            state: state::fresh(),
            transcript: [0; TRANSCRIPT],
            answer: [0; ANSWER],
        }
    }

    // Goes on from what the responder came to: the answer's length, or what the host is told in its place.
    fn take(&mut self, outcome: Outcome) -> Result<usize, HostError> {
        self.state = outcome.state;
        outcome.reply
    }

    // Sends a request.
    fn exchange(&mut self, request: &[u8]) -> Result<usize, HostError> {
        let outcome = responder::respond(
            self.image,
            self.state,
            &mut self.transcript,
            &mut self.answer,
            request,
            &NONCE,
        );
        self.take(outcome)
    }

    // Finishes a signed answer; the chip's signature is a fixed pattern.
    fn finish(&mut self) -> Result<usize, HostError> {
        let outcome = signing::finish(
            self.image,
            self.state,
            &self.transcript,
            &mut self.answer,
            true,
            &SIGNATURE,
        );
        self.take(outcome)
    }

    // Whether the chip's signature is awaited.
    fn is_unsigned(&self) -> bool {
        self.state.awaited.whose != 0
    }

    // How many bytes of B are used.
    pub fn used_b(&self) -> u32 {
        self.state.used.b
    }

    // The mask of the slots that DIGESTS names, where that was the last answer.
    pub fn slot_mask(&self) -> u8 {
        self.answer[SLOT_MASK_AT]
    }

    // Sends a request with nothing printed: the answer's bytes, none beside a number for the host.
    pub fn answer_to(&mut self, bytes: &[u8]) -> &[u8] {
        let length = self.exchange(bytes).unwrap_or(0);
        wire::part_of(&self.answer, 0, length)
    }

    // Sends a request, finishes the answer if it is a signed one, and prints both. What cannot be written is let go.
    pub fn ask(&mut self, request: Request, bytes: &[u8]) {
        let _ = print!(self.rt; "  {request} {}", Hex(bytes));
        let mut reply = self.exchange(bytes);
        if self.is_unsigned() {
            let signed = Signed {
                state: self.state,
                transcript: &self.transcript,
            };
            let _ = print!(self.rt; " {signed}");
            reply = self.finish();
        }
        let _ = match reply {
            Ok(length) => {
                println!(self.rt; " -> {}", Hex(wire::part_of(&self.answer, 0, length)))
            }
            Err(error) => println!(self.rt; " -> number {}", error.number()),
        };
    }

    // Sends a GET_CAPABILITIES.
    fn capabilities(&mut self, version: u8) {
        let mut bytes = CAPABILITIES;
        bytes[0] = version;
        if version == VERSION_11 {
            self.ask(Request::Capabilities, &bytes[..CAPABILITIES_11])
        } else {
            self.ask(Request::Capabilities, &bytes)
        }
    }

    // Sends a NEGOTIATE_ALGORITHMS.
    fn algorithms(&mut self, version: u8) {
        let mut bytes = OFFER;
        bytes[0] = version;
        self.ask(Request::Algorithms, &bytes)
    }

    // Sends a CHALLENGE.
    pub fn challenge(&mut self, peer: Peer) {
        self.ask(Request::Challenge, &peer.challenge(&REQUESTER_NONCE))
    }

    // Reads a slot's chain to its end, each time with the largest length.
    fn read_chain(&mut self, peer: Peer) {
        for offset in (0..LONGEST).step_by(PORTION) {
            let bytes = peer.get_certificate(offset, u16::MAX);
            self.ask(Request::Certificate, &bytes);
            if is_last(&self.answer) {
                break;
            }
        }
    }

    // Sends a request, a GET_CERTIFICATE until the chain is read.
    fn send(&mut self, request: Request, peer: Peer) {
        match request {
            Request::Version => self.ask(request, &[VERSION_10, request.code(), 0, 0]),
            Request::Digests => self.ask(request, &[peer.version, request.code(), 0, 0]),
            Request::Capabilities => self.capabilities(peer.version),
            Request::Algorithms => self.algorithms(peer.version),
            Request::Certificate => self.read_chain(peer),
            Request::Challenge => self.challenge(peer),
        }
    }

    // Sends a run of requests.
    pub fn run(&mut self, requests: &[Request], peer: Peer) {
        for &request in requests {
            self.send(request, peer);
        }
    }
}
