// What a request comes to, before any byte is written: the numbers 11 to 14, then the steps 1 to 9 in the order of the paper.
#![tactic(auto)]

mod algorithms;
mod capabilities;
mod certificate;
mod challenge;
mod digests;
mod measurements;
pub mod sizes;
mod steps;

ghost use Rattle.std.specs.Prelude.{◌≡◌, ◌≤◌, Ok, length};
ghost use Rattle.rules.specs.Limits.{header_length};
ghost use Rattle.rules.specs.Steps.{kind_steps};
ghost use Rattle.rules.specs.Version.{version_decision};
ghost use Rattle.rules.specs.Decision.{decided};
ghost use Rattle.rules.specs.Decisions.{last_steps, request_decision, decision_of};
ghost use Rattle.decision.specs.ImageFacts.{facts_in};

use image_lookup::Image;
use rules::limits::{
    BUSY, BUSY_STEP, CODE_STEP, HEADER_LENGTH, INVALID_REQUEST, LONG_STEP, MESSAGE_LIMIT,
    NONCE_LENGTH, PHASE_STEP, SHORT_STEP, TRANSCRIPT_LENGTH, UNEXPECTED_REQUEST,
    UNSUPPORTED_REQUEST, VERSION_LENGTH, VERSION_MISMATCH, VERSION_PHASE, VERSION_STEP,
};
use rules::{Accepted, HostError, Kind, Lengths, Message, Negotiated, Part, Refusal, State};

// GET_VERSION is accepted as it stands, and clears all.
fn decide_version() -> Accepted
    ensures { decided (Ok result) ≡ version_decision }
{
    Accepted {
        message: Message::Version,
        negotiated: Negotiated {
            phase: VERSION_PHASE,
            ..state::fresh().negotiated
        },
        exchange: steps::complete(Part::A, HEADER_LENGTH, VERSION_LENGTH),
    }
}

// Steps 7 to 9, by the kind of request. The image, the state and the request stay apart: most kinds need only one or two of them.
#[tactic(auto, unfolding(rules::specs::Decisions::last_steps))]
fn last_steps(image: &Image, s: State, r: &[u8], k: Kind) -> Result<Accepted, Refusal>
    requires { header_length ≤ length r.now }
    ensures { decided result ≡ last_steps (facts_in image.now) s r.now k }
{
    match k {
        Kind::Version => Ok(decide_version()),
        Kind::Capabilities => capabilities::decide_capabilities(r),
        Kind::Algorithms => algorithms::decide_algorithms(image, s.negotiated, r),
        Kind::Digests => digests::decide_digests(image, s),
        Kind::Certificate => certificate::decide_certificate(image, s, r),
        Kind::Challenge => challenge::decide_challenge(image, s, r),
        Kind::Measurements => measurements::decide_measurements(image, s, r),
    }
}

// Steps 4 to 6, then the kind's own.
#[tactic(auto, using(wire::proofs::Picks::picks), unfolding(rules::specs::Steps::kind_steps))]
fn kind_steps(image: &Image, s: State, r: &[u8], k: Kind) -> Result<Accepted, Refusal>
    requires { header_length ≤ length r.now }
    ensures { decided result ≡ kind_steps (facts_in image.now) s r.now k (last_steps (facts_in image.now) s r.now k) }
{
    if !steps::serves_kind(image, k) {
        return Err(steps::refused(CODE_STEP, UNSUPPORTED_REQUEST, r[1]));
    }
    if !steps::version_fits(s.negotiated, r[0], k) {
        return Err(steps::refused(VERSION_STEP, VERSION_MISMATCH, 0));
    }
    if !steps::in_phase(s.negotiated, k) {
        return Err(steps::refused(PHASE_STEP, UNEXPECTED_REQUEST, 0));
    }
    last_steps(image, s, r, k)
}

// Steps 1 to 3, then those of the request's kind.
#[tactic(auto, using(wire::proofs::Picks::picks), unfolding(rules::specs::Decisions::request_decision, rules::specs::Steps::first_steps, rules::specs::Steps::asked_steps))]
fn decide_request(image: &Image, s: State, r: &[u8]) -> Result<Accepted, Refusal>
    ensures { decided result ≡ request_decision (facts_in image.now) s r.now }
{
    if r.len() < HEADER_LENGTH {
        return Err(steps::refused(SHORT_STEP, INVALID_REQUEST, 0));
    }
    if MESSAGE_LIMIT < r.len() {
        return Err(steps::refused(LONG_STEP, steps::long_code(s.negotiated), 0));
    }
    let code = r[1];
    if steps::must_wait(s.awaited, code) {
        return Err(steps::refused(BUSY_STEP, BUSY, 0));
    }
    match steps::kind_of(code) {
        Some(k) => kind_steps(image, s, r, k),
        None => Err(steps::refused(CODE_STEP, UNSUPPORTED_REQUEST, code)),
    }
}

// The numbers 11 to 14 for the host, then the steps of a request.
#[tactic(auto, using(wire::proofs::Picks::picks), unfolding(rules::specs::Decisions::decision_of))]
pub fn decide(
    image: &Image,
    s: State,
    lent: Lengths,
    nonce: usize,
    r: &[u8],
) -> Result<Accepted, Refusal>
    ensures { decided result ≡ decision_of (facts_in image.now) s lent nonce r.now }
{
    if lent.answer < MESSAGE_LIMIT {
        return Err(HostError::ShortAnswer.into());
    }
    if lent.transcript < TRANSCRIPT_LENGTH {
        return Err(HostError::ShortTranscript.into());
    }
    if nonce != NONCE_LENGTH {
        return Err(HostError::WrongNonce.into());
    }
    let index = image.index;
    if !state::in_bounds(index.measurements, index.identity.signature, s) {
        return Err(HostError::WrongState.into());
    }
    decide_request(image, s, r)
}
