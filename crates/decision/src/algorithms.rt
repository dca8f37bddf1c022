// NEGOTIATE_ALGORITHMS.
ghost use Rattle.std.specs.Prelude.{◌≡◌, ◌≤◌, ◌-◌, length};
ghost use Rattle.rules.specs.Limits.{algorithms_least, algorithms_most, type_least};
ghost use Rattle.rules.specs.Header.{param1};
ghost use Rattle.rules.specs.Decision.{decided};
ghost use Rattle.rules.specs.Algorithms.{bit_set, length_field, structures_start, structures_fit, selection_for, algorithms_decision};
ghost use Rattle.decision.specs.ImageFacts.{facts_in};

use super::steps::{complete, invalid_request};
use image_lookup::Image;
use rules::limits::{
    ALGORITHMS_LEAST, ALGORITHMS_LENGTH, ALGORITHMS_MOST, ALGORITHMS_PHASE, TYPE_LEAST, TYPE_MOST,
};
use rules::{Accepted, Message, Negotiated, Part, Refusal};

// Whether bit n of a field is set; a field has 32.
#[tactic(auto, using(crate::proofs::AlgorithmLaws::no_bit))]
fn bit_set(v: u32, n: u8) -> bool
    ensures { result ≡ bit_set v n }
{
    n < 32 && (v >> n) % 2 == 1
}

// The structures: so many as Param1 says, of rising types, ending at Length.
#[tactic(auto, using(crate::proofs::AlgorithmLaws::walk))]
fn structures_fit(r: &[u8], long: usize) -> bool
    requires least { algorithms_least ≤ length r.now }
    requires told { long ≡ length_field r.now }
    requires most { long ≤ algorithms_most }
    requires here { long ≤ length r.now }
    ensures { result ≡ structures_fit r.now (param1 r.now) (type_least - 1) (structures_start r.now) }
{
    let mut last = TYPE_LEAST - 1;
    let mut at = ALGORITHMS_LEAST + 4 * usize::from(r[28]) + 4 * usize::from(r[29]);
    for _ in 0..r[2] {
        if long < at + 4 {
            return false;
        }
        let kind = r[at];
        let size = r[at + 1];
        if kind <= last || TYPE_MOST < kind || size / 16 != 2 {
            return false;
        }
        last = kind;
        at += 4 + 4 * usize::from(size % 16);
    }
    at == long
}

#[tactic(auto, using(wire::proofs::Picks::picks))]
fn selection_for(image: &Image, r: &[u8]) -> u32
    ensures { result ≡ selection_for (facts_in image.now) r.now }
{
    if image.index.measurements == 0 {
        return 0;
    }
    u32::from(wire::byte_at(r, 6) % 2)
}

#[tactic(auto, using(wire::proofs::Picks::picks), unfolding(rules::specs::Algorithms::algorithms_decision))]
pub(crate) fn decide_algorithms(image: &Image, n: Negotiated, r: &[u8]) -> Result<Accepted, Refusal>
    ensures { decided result ≡ algorithms_decision (facts_in image.now) n r.now }
{
    let identity = image.index.identity;
    if r.len() < ALGORITHMS_LEAST {
        return Err(invalid_request());
    }
    let long = usize::from(wire::get_u16le(r, 4));
    if long < ALGORITHMS_LEAST || ALGORITHMS_MOST < long || r.len() < long {
        return Err(invalid_request());
    }
    if !structures_fit(r, long) {
        return Err(invalid_request());
    }
    if !bit_set(wire::get_u32le(r, 8), identity.signature)
        || !bit_set(wire::get_u32le(r, 12), identity.hash)
    {
        return Err(invalid_request());
    }
    Ok(Accepted {
        message: Message::Algorithms,
        negotiated: Negotiated {
            phase: ALGORITHMS_PHASE,
            selection: selection_for(image, r),
            ..n
        },
        exchange: complete(Part::A, long, ALGORITHMS_LENGTH),
    })
}
