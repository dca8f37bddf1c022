// An accepted request, whichever message answers it: zeros for the signature, the exchange appended, and the next state.
ghost use Rattle.std.specs.Prelude.{◌≡◌, ◌+◌, ◌≤◌, length, take, ◌++◌};
ghost use Rattle.wire.specs.Bytes.{splice};
ghost use Rattle.rules.specs.Limits.{transcript_length};
ghost use Rattle.rules.specs.Parts.{start_of, limit_of, count_of, kept_by, kept_used};
ghost use Rattle.rules.specs.Messages.{kind_for};
ghost use Rattle.rules.specs.Box.{Lent};
ghost use Rattle.rules.proofs.Told.{Fitting};
ghost use Rattle.responder.specs.Carried.{Measured, added_to, awaited_by, Carried};

use crate::zeros::write_zeros;
use rules::limits::{A_START, AWAITS_NOTHING, B_START, M_START};
use rules::{Accepted, Awaited, Exchange, Message, Outcome, Part, State, Used};

// What an accepted request keeps of the parts: a GET_VERSION nothing, a GET_MEASUREMENTS not B, any other not M.
#[tactic(auto, unfolding(wire::specs::Pick::pick))]
fn kept(m: Message, u: Used) -> Used
    ensures { result ≡ kept_used (kept_by (kind_for m)) u }
{
    match m {
        Message::Version => Used { a: 0, b: 0, m: 0 },
        Message::Capabilities
        | Message::Algorithms
        | Message::Digests
        | Message::Certificate { .. }
        | Message::Challenge { .. } => Used { m: 0, ..u },
        Message::Measurements { .. } => Used { b: 0, ..u },
    }
}

// Where a part ends in the transcript.
fn place_of(p: Part, u: Used) -> usize
    ensures { result ≡ start_of p + count_of p u }
{
    match p {
        Part::A => A_START + u.a as usize,
        Part::B => B_START + u.b as usize,
        Part::M => M_START + u.m as usize,
    }
}

#[tactic(auto, unfolding(wire::specs::Pick::pick))]
fn add_to(p: Part, u: Used, n: usize) -> Used
    requires { count_of p u + n ≤ limit_of p }
    ensures { result ≡ added_to p n u }
{
    match p {
        Part::A => Used {
            a: u.a + n as u32,
            ..u
        },
        Part::B => Used {
            b: u.b + n as u32,
            ..u
        },
        Part::M => Used {
            m: u.m + n as u32,
            ..u
        },
    }
}

// A signature is awaited for the whole answer, or nothing is.
#[tactic(auto, using(wire::proofs::Picks::picks), unfolding(wire::specs::Pick::pick))]
fn awaited_by(x: Exchange) -> Awaited
    requires { Measured x }
    ensures { result ≡ awaited_by x }
{
    if x.whose == AWAITS_NOTHING {
        return state::fresh().awaited;
    }
    Awaited {
        whose: x.whose,
        length: (x.length + x.signature) as u32,
    }
}

// A request's layout and its answer, one behind the other.
#[tactic(auto, using(crate::proofs::RunLaws::runs))]
fn append(t: &mut [u8], at: usize, request: &[u8], layout: usize, answer: &[u8], n: usize)
    requires { (layout ≤ length request.now) × (at ≤ transcript_length) }
    ensures { t.new
        ≡ splice t.old at (take layout request.now ++ take n answer.now) }
{
    wire::copy_into(t, at, wire::part_of(request, 0, layout));
    wire::copy_into(t, at + layout, wire::part_of(answer, 0, n));
}

#[tactic(auto, using(crate::proofs::Carries::carries))]
pub(crate) fn accept(
    s: State,
    accepted: Accepted,
    transcript: &mut [u8],
    answer: &mut [u8],
    request: &[u8],
) -> Outcome
    requires { (Measured accepted.exchange) × (Fitting s request.now accepted.message accepted.exchange) }
    ensures { (
        let before : Lent = record { transcript = transcript.entry.now; answer = answer.old } in
        let after : Lent = record { transcript = transcript.exit.now; answer = answer.new } in
        Carried s accepted request.now before after result) }
{
    let x = accepted.exchange;
    write_zeros(answer, x.length, x.signature);
    let rest = kept(accepted.message, s.used);
    let place = place_of(x.part, rest);
    append(transcript, place, request, x.layout, answer, x.length);
    Outcome {
        reply: Ok(x.length + x.signature),
        state: State {
            negotiated: accepted.negotiated,
            used: add_to(x.part, rest, x.layout + x.length),
            awaited: awaited_by(x),
        },
    }
}
