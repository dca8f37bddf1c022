// The steps that every request passes, and those on an exchange.
ghost use Rattle.std.specs.Prelude.{◌≡◌, ltb, Err};
ghost use Rattle.rules.specs.Limits.{awaits_nothing};
ghost use Rattle.rules.specs.Parts.{limit_of, count_of};
ghost use Rattle.rules.specs.Header.{is_edition};
ghost use Rattle.rules.specs.Decision.{decided};
ghost use Rattle.rules.specs.Steps.{kind_of, long_code, must_wait, serves, carries, version_fits, in_phase, refusal, invalid, size_steps};
ghost use Rattle.decision.specs.ImageFacts.{facts_in};
ghost use Rattle.decision.specs.Tests.{Tested};
ghost use Rattle.decision.specs.Small.{Small};

use image::SlotNumber;
use image_lookup::Image;
use rules::limits::{
    A_LIMIT, ALGORITHMS_PHASE, AWAITS_NOTHING, B_LIMIT, CAPABILITIES_PHASE, CHALLENGE, FIELDS_STEP,
    GET_CAPABILITIES, GET_CERTIFICATE, GET_DIGESTS, GET_MEASUREMENTS, GET_VERSION, INVALID_REQUEST,
    M_LIMIT, NEGOTIATE_ALGORITHMS, REQUEST_TOO_LARGE, RESPONSE_TOO_LARGE, ROOM_STEP, SIZE_STEP,
    UNSPECIFIED, VERSION_10, VERSION_11, VERSION_12, VERSION_PHASE,
};
use rules::{
    Accepted, Awaited, Exchange, Kind, Message, Negotiated, Part, Refusal, Refused, State, Used,
};

// What a request code asks for: every code that is not served, RESPOND_IF_READY included, is unsupported. The ranges between stand
// written out, so that each code is seen to have its arm.
#[tactic(auto, using(wire::proofs::Picks::picks), unfolding(rules::specs::Steps::kind_of))]
pub(crate) fn kind_of(code: u8) -> Option<Kind>
    ensures { result ≡ kind_of code }
{
    match code {
        GET_VERSION => Some(Kind::Version),
        GET_CAPABILITIES => Some(Kind::Capabilities),
        NEGOTIATE_ALGORITHMS => Some(Kind::Algorithms),
        GET_DIGESTS => Some(Kind::Digests),
        GET_CERTIFICATE => Some(Kind::Certificate),
        CHALLENGE => Some(Kind::Challenge),
        GET_MEASUREMENTS => Some(Kind::Measurements),
        0..=0x80 | 0x85..=0xDF | 0xE2 | 0xE4..=0xFF => None,
    }
}

// Step 2's code.
#[tactic(auto, using(wire::proofs::Picks::picks))]
pub(crate) fn long_code(n: Negotiated) -> u8
    ensures { result ≡ long_code n }
{
    if state::version_of(n) == VERSION_11 {
        INVALID_REQUEST
    } else {
        REQUEST_TOO_LARGE
    }
}

// Step 3: a signature is awaited, and this is no GET_VERSION.
#[tactic(auto, using(wire::proofs::Picks::picks), unfolding(rules::specs::Steps::must_wait))]
pub(crate) fn must_wait(w: Awaited, code: u8) -> bool
    ensures { result ≡ must_wait w code }
{
    w.whose != AWAITS_NOTHING && code != GET_VERSION
}

// Step 4. This match and those of steps 5 and 6 name every kind, so that a new one must be thought of.
#[tactic(auto, unfolding(rules::specs::Steps::serves))]
pub(crate) fn serves_kind(image: &Image, k: Kind) -> bool
    ensures { result ≡ serves (facts_in image.now) k }
{
    match k {
        Kind::Version
        | Kind::Capabilities
        | Kind::Algorithms
        | Kind::Digests
        | Kind::Certificate
        | Kind::Challenge => true,
        Kind::Measurements => 0 < image.index.measurements,
    }
}

#[tactic(auto, using(wire::proofs::Picks::picks))]
fn is_edition(version: u8) -> bool
    ensures { result ≡ is_edition version }
{
    version == VERSION_11 || version == VERSION_12
}

// Before a choice either edition, after it the chosen one.
#[tactic(auto, using(wire::proofs::Picks::picks), unfolding(rules::specs::Steps::carries))]
fn carries_edition(n: Negotiated, version: u8) -> bool
    ensures { result ≡ carries n version }
{
    if n.phase < CAPABILITIES_PHASE {
        is_edition(version)
    } else {
        version == state::version_of(n)
    }
}

// Step 5.
#[tactic(auto, unfolding(rules::specs::Steps::version_fits))]
pub(crate) fn version_fits(n: Negotiated, version: u8, k: Kind) -> bool
    ensures { result ≡ version_fits n version k }
{
    match k {
        Kind::Version => version == VERSION_10,
        Kind::Capabilities
        | Kind::Algorithms
        | Kind::Digests
        | Kind::Certificate
        | Kind::Challenge
        | Kind::Measurements => carries_edition(n, version),
    }
}

// Step 6.
#[tactic(auto, using(wire::proofs::Picks::picks), unfolding(rules::specs::Steps::in_phase))]
pub(crate) fn in_phase(n: Negotiated, k: Kind) -> bool
    ensures { result ≡ in_phase n k }
{
    match k {
        Kind::Version => true,
        Kind::Capabilities => n.phase == VERSION_PHASE,
        Kind::Algorithms => n.phase == CAPABILITIES_PHASE,
        Kind::Digests | Kind::Certificate | Kind::Challenge => n.phase == ALGORITHMS_PHASE,
        Kind::Measurements => n.phase == ALGORITHMS_PHASE && n.selection == 1,
    }
}

pub(crate) fn refused(step: u8, code: u8, extra: u8) -> Refusal
    ensures { decided (Err result) ≡ refusal step code extra }
{
    Refusal::Request(Refused {
        step,
        code,
        extra,
        size: 0,
    })
}

// Step 7 refuses with this.
pub(crate) fn invalid_request() -> Refusal
    ensures { decided (Err result) ≡ invalid }
{
    refused(FIELDS_STEP, INVALID_REQUEST, 0)
}

// The slot with that number, which step 7 refuses where it is out of range or not filled.
#[tactic(auto, using(crate::proofs::IndexLaws::slots))]
pub(crate) fn filled_slot(image: &Image, asked: u8) -> Result<SlotNumber, Refusal>
    ensures { Tested result (record { 0 = asked }) (ltb 0 ((facts_in image.now).chain_length asked)) }
{
    match SlotNumber::new(asked) {
        Some(slot) if 0 < image.chain_length(slot) => Ok(slot),
        _ => Err(invalid_request()),
    }
}

// The exchange of an answer that is complete.
pub(crate) fn complete(part: Part, layout: usize, length: usize) -> Exchange
    ensures { result ≡ record { part = part; layout = layout; length = length; signature = 0; whose = awaits_nothing } }
{
    Exchange {
        part,
        layout,
        length,
        signature: 0,
        whose: AWAITS_NOTHING,
    }
}

fn limit_of(p: Part) -> u32
    ensures { result ≡ limit_of p }
{
    match p {
        Part::A => A_LIMIT,
        Part::B => B_LIMIT,
        Part::M => M_LIMIT,
    }
}

fn count_of(p: Part, u: Used) -> u32
    ensures { result ≡ count_of p u }
{
    match p {
        Part::A => u.a,
        Part::B => u.b,
        Part::M => u.m,
    }
}

// Steps 8 and 9; what passed them is accepted.
#[tactic(auto, using(wire::proofs::Picks::picks), unfolding(rules::specs::Steps::size_steps))]
pub(crate) fn size_steps(
    s: State,
    message: Message,
    exchange: Exchange,
) -> Result<Accepted, Refusal>
    requires { Small exchange }
    ensures { decided result ≡ size_steps s message exchange }
{
    let whole = exchange.length + exchange.signature;
    if (s.negotiated.peer as usize) < whole {
        return Err(Refusal::Request(Refused {
            step: SIZE_STEP,
            code: RESPONSE_TOO_LARGE,
            extra: 0,
            size: whole,
        }));
    }
    let limit = limit_of(exchange.part) as usize;
    let count = count_of(exchange.part, s.used) as usize;
    if limit < count + exchange.layout + exchange.length {
        return Err(refused(ROOM_STEP, UNSPECIFIED, 0));
    }
    Ok(Accepted {
        message,
        negotiated: s.negotiated,
        exchange,
    })
}
