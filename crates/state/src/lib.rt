// The connection state that the host holds: the fresh one, the bounds of any that it hands in (number 14), what a refusal leaves, and the
// version byte that goes by it.
#![tactic(auto)]

ghost use Rattle.std.specs.Prelude.{◌≡◌};
ghost use Rattle.rules.specs.State.{fresh as freshState, holds_only, capabilities_used, phase_fits, selection_fits, awaited_fits};
ghost use Rattle.rules.specs.State.{edition_fits, own_bounds, selection_held, awaited_long, in_bounds};
ghost use Rattle.rules.specs.Facts.{Facts};
ghost use Rattle.rules.specs.Header.{version_of};
ghost use Rattle.rules.specs.Parts.{kept_by_refusal};
ghost use Rattle.rules.specs.Box.{refused_state};

use rules::limits::{
    A_LIMIT, ALGORITHMS_PHASE, AWAITS_MEASUREMENTS, AWAITS_NOTHING, B_LIMIT, CAPABILITIES_PHASE,
    CAPABILITIES_USED_11, CAPABILITIES_USED_12, FIELDS_STEP, FRESH_PHASE, GET_MEASUREMENTS,
    HEADER_LENGTH, M_LIMIT, MESSAGE_LIMIT, NO_EDITION, PEER_11, PEER_LEAST, ROOM_STEP, VERSION_10,
    VERSION_11, VERSION_12, VERSION_PHASE, VERSION_USED,
};
use rules::{Awaited, Negotiated, State, Used};

// The state of a connection on which nothing was said yet. No derived Default: the names say what each 0 means.
pub fn fresh() -> State
    ensures { result ≡ freshState }
{
    State {
        negotiated: Negotiated {
            edition: NO_EDITION,
            phase: FRESH_PHASE,
            peer: 0,
            selection: 0,
        },
        used: Used { a: 0, b: 0, m: 0 },
        awaited: Awaited {
            whose: AWAITS_NOTHING,
            length: 0,
        },
    }
}

#[tactic(auto, unfolding(rules::specs::State::holds_only, wire::specs::Pick::pick))]
fn holds_only(u: Used, n: u32) -> bool
    ensures { result ≡ holds_only u n }
{
    u.a == n && u.b == 0 && u.m == 0
}

// What A holds in phase 2.
#[tactic(auto, unfolding(wire::specs::Pick::pick))]
fn capabilities_used(n: Negotiated) -> u32
    ensures { result ≡ capabilities_used (version_of n) }
{
    if version_of(n) == VERSION_11 {
        CAPABILITIES_USED_11
    } else {
        CAPABILITIES_USED_12
    }
}

#[tactic(auto, unfolding(rules::specs::State::phase_fits, wire::specs::Pick::pick))]
fn phase_fits(n: Negotiated, u: Used) -> bool
    ensures { result ≡ phase_fits n u }
{
    match n.phase {
        FRESH_PHASE => holds_only(u, 0),
        VERSION_PHASE => holds_only(u, VERSION_USED),
        _ if n.peer < PEER_LEAST => false,
        CAPABILITIES_PHASE => holds_only(u, capabilities_used(n)),
        _ => true,
    }
}

#[tactic(auto, unfolding(rules::specs::State::selection_fits, wire::specs::Pick::pick))]
fn selection_fits(n: Negotiated) -> bool
    ensures { result ≡ selection_fits n }
{
    n.selection == 0 || (n.selection == 1 && n.phase == ALGORITHMS_PHASE)
}

#[tactic(auto, unfolding(rules::specs::State::awaited_fits, wire::specs::Pick::pick))]
fn awaited_fits(n: Negotiated, w: Awaited) -> bool
    ensures { result ≡ awaited_fits n w }
{
    w.whose == AWAITS_NOTHING
        || (w.whose <= AWAITS_MEASUREMENTS
            && n.phase == ALGORITHMS_PHASE
            && w.length as usize <= MESSAGE_LIMIT)
}

#[tactic(auto, unfolding(rules::specs::State::edition_fits, wire::specs::Pick::pick))]
fn edition_fits(n: Negotiated) -> bool
    ensures { result ≡ edition_fits n }
{
    if version_of(n) == VERSION_10 {
        n.edition == NO_EDITION
    } else if n.edition == u32::from(VERSION_11) {
        n.peer == PEER_11
    } else {
        n.edition == u32::from(VERSION_12)
    }
}

// Whether a state that the host hands in lies within the bounds that need no image.
#[tactic(auto, unfolding(rules::specs::State::own_bounds, wire::specs::Pick::pick))]
pub fn own_bounds(s: State) -> bool
    ensures { result ≡ own_bounds s }
{
    let n = s.negotiated;
    let u = s.used;
    n.phase <= ALGORITHMS_PHASE
        && u.a <= A_LIMIT
        && u.b <= B_LIMIT
        && u.m <= M_LIMIT
        && phase_fits(n, u)
        && selection_fits(n)
        && awaited_fits(n, s.awaited)
        && edition_fits(n)
}

#[tactic(auto, unfolding(rules::specs::State::selection_held, wire::specs::Pick::pick))]
fn selection_held(measurements: u8, n: Negotiated) -> bool
    ensures { (f : Facts) → f.measurements ≡ measurements → result ≡ selection_held f n }
{
    n.selection == 0 || 0 < measurements
}

#[tactic(auto, unfolding(rules::specs::State::awaited_long, wire::specs::Pick::pick))]
fn awaited_long(signature: u8, w: Awaited) -> bool
    ensures { (f : Facts) → f.identity.signature ≡ signature → result ≡ awaited_long f w }
{
    w.whose == AWAITS_NOTHING
        || HEADER_LENGTH + image::signature_size(signature) <= w.length as usize
}

// Whether a state that the host hands in lies within its bounds, for an image with so many measurements and that signature number.
#[tactic(auto, unfolding(rules::specs::State::in_bounds, wire::specs::Pick::pick))]
pub fn in_bounds(measurements: u8, signature: u8, s: State) -> bool
    ensures { (f : Facts) → f.measurements ≡ measurements → f.identity.signature ≡ signature →
        result ≡ in_bounds f s }
{
    own_bounds(s)
        && selection_held(measurements, s.negotiated)
        && awaited_long(signature, s.awaited)
}

// What a refusal leaves, by its step and the request's code: a GET_MEASUREMENTS that is refused at step 7, 8 or 9 empties M.
#[tactic(auto, unfolding(wire::specs::Pick::pick))]
pub fn refused(s: State, step: u8, asked: u8) -> State
    ensures { result ≡ refused_state (kept_by_refusal step asked) s }
{
    if asked == GET_MEASUREMENTS && FIELDS_STEP <= step && step <= ROOM_STEP {
        let used = Used { m: 0, ..s.used };
        State { used, ..s }
    } else {
        s
    }
}

// The version byte of an answer, by what is negotiated with it.
#[tactic(auto, unfolding(rules::specs::Header::version_of, wire::specs::Pick::pick))]
pub fn version_of(n: Negotiated) -> u8
    ensures { result ≡ version_of n }
{
    if n.phase < CAPABILITIES_PHASE {
        VERSION_10
    } else if n.edition == u32::from(VERSION_11) {
        VERSION_11
    } else {
        VERSION_12
    }
}
