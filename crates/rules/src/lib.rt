// SPDM's vocabulary as types: the connection state, the kinds of request, and what a call comes to. The rules are in specs/.
#![tactic(auto)]

pub mod limits;

ghost use Rattle.std.specs.Prelude.{◌≡◌};
ghost use Rattle.rules.specs.HostError.{host_number};
ghost use Rattle.rules.specs.declared.HostError.TheVariants.{Image};
ghost use Rattle.rules.specs.declared.Refusal.TheVariants.{Host, Request};

use image::{Fault, MeasurementIndex, SlotNumber};
use limits::{
    NOTHING_AWAITED, SHORT_ANSWER, SHORT_TRANSCRIPT, WRONG_NONCE, WRONG_SIGNATURE, WRONG_STATE,
};

// How far the negotiation has come, and what it agreed on. Its fields, and those of Used and Awaited, are any words: the C interface
// hands them in as they are, and number 14 tells of those out of their range.
#[derive(Clone, Copy)]
pub struct Negotiated {
    // the version byte of the chosen edition, 0 before the choice
    pub edition: u32,
    pub phase: u32,
    // the peer's DataTransferSize
    pub peer: u32,
    // 1: the measurement specification was selected
    pub selection: u32,
}

// Bytes used of the three parts of the transcript.
#[derive(Clone, Copy)]
pub struct Used {
    pub a: u32,
    pub b: u32,
    pub m: u32,
}

// Whose signature is awaited (limits has the numbers), and the length of that answer.
#[derive(Clone, Copy)]
pub struct Awaited {
    pub whose: u32,
    pub length: u32,
}

// The connection state as the host holds it between two calls; all zero is fresh.
#[derive(Clone, Copy)]
pub struct State {
    pub negotiated: Negotiated,
    pub used: Used,
    pub awaited: Awaited,
}

// The lengths of the buffers that a call is lent.
#[derive(Clone, Copy)]
pub struct Lengths {
    pub transcript: usize,
    pub answer: usize,
}

// The kinds of request that are served.
#[derive(Clone, Copy)]
pub enum Kind {
    Version,
    Capabilities,
    Algorithms,
    Digests,
    Certificate,
    Challenge,
    Measurements,
}

// Which measurements a GET_MEASUREMENTS asks for: only their count, all, or one.
#[derive(Clone, Copy)]
pub enum Operation {
    Count,
    All,
    One(MeasurementIndex),
}

// An answer, with the numbers that its bytes need beside the image, the nonce and what is negotiated.
#[derive(Clone, Copy)]
pub enum Message {
    Version,
    Capabilities,
    Algorithms,
    Digests,
    Certificate {
        slot: SlotNumber,
        offset: usize,
        portion: usize,
        remainder: usize,
    },
    Challenge {
        slot: SlotNumber,
        summary: u8,
    },
    Measurements {
        operation: Operation,
        // the slot that signs, where a signature is asked
        signer: Option<SlotNumber>,
    },
}

// The parts of the transcript.
#[derive(Clone, Copy)]
pub enum Part {
    A,
    B,
    M,
}

// What an accepted request does beside its answer, alike for every message: the part that it is appended to, how much of the request
// and of the answer is appended, the length of the signature that the answer ends in, and whose signature is awaited.
#[derive(Clone, Copy)]
pub struct Exchange {
    pub part: Part,
    pub layout: usize,
    pub length: usize,
    pub signature: usize,
    // a word, as Awaited's, which it becomes
    pub whose: u32,
}

// What the host is told in place of an answer.
#[derive(Clone, Copy, PartialEq, Eq)]
pub enum HostError {
    Image(Fault),
    ShortAnswer,
    ShortTranscript,
    WrongNonce,
    WrongState,
    // the last two: finishing only
    NothingAwaited,
    WrongSignature,
}

impl HostError {
    // The number that the host sees.
    pub fn number(self) -> u32
        ensures { result ≡ host_number self }
    {
        match self {
            HostError::Image(fault) => u32::from(fault.number()),
            HostError::ShortAnswer => SHORT_ANSWER,
            HostError::ShortTranscript => SHORT_TRANSCRIPT,
            HostError::WrongNonce => WRONG_NONCE,
            HostError::WrongState => WRONG_STATE,
            HostError::NothingAwaited => NOTHING_AWAITED,
            HostError::WrongSignature => WRONG_SIGNATURE,
        }
    }
}

impl From<Fault> for HostError {
    ghost from_gives = { λ f e. e ≡ Image f };

    fn from(fault: Fault) -> HostError {
        HostError::Image(fault)
    }
}

// An accepted request, with all that follows from it.
#[derive(Clone, Copy)]
pub struct Accepted {
    pub message: Message,
    pub negotiated: Negotiated,
    pub exchange: Exchange,
}

// An ERROR of the step that refuses. Step and code are numbers, as state::refused promises what any step leaves, and a code is the byte that
// is written. The size is the answer's, which step 8 tells.
#[derive(Clone, Copy)]
pub struct Refused {
    pub step: u8,
    pub code: u8,
    pub extra: u8,
    pub size: usize,
}

// Why no request is accepted: a number for the host, or an ERROR for the peer. What a request comes to before any byte is written is a
// Result of Accepted and this.
#[derive(Clone, Copy)]
pub enum Refusal {
    Host(HostError),
    Request(Refused),
}

impl From<HostError> for Refusal {
    ghost from_gives = { λ e r. r ≡ Host e };

    fn from(error: HostError) -> Refusal {
        Refusal::Host(error)
    }
}

impl From<Refused> for Refusal {
    ghost from_gives = { λ e r. r ≡ Request e };

    fn from(refused: Refused) -> Refusal {
        Refusal::Request(refused)
    }
}

// The length of the answer in the lent buffer, or what the host is told in its place; and the state then.
#[derive(Clone, Copy)]
pub struct Outcome {
    pub reply: Result<usize, HostError>,
    pub state: State,
}
