// GET_CERTIFICATE.
ghost use Rattle.std.specs.Prelude.{◌≡◌, ◌≤◌};
ghost use Rattle.decision.specs.ImageFacts.{facts_in};
ghost use Rattle.rules.specs.Decision.{decided};
ghost use Rattle.rules.specs.Certificate.{portion_of, certificate_decision};
ghost use Rattle.rules.specs.Limits.{portion_limit};

use super::steps::{complete, filled_slot, invalid_request, size_steps};
use image_lookup::Image;
use rules::limits::{CERTIFICATE_HEAD, CERTIFICATE_LAYOUT, PORTION_LIMIT};
use rules::{Accepted, Message, Part, Refusal, State};

#[tactic(auto, unfolding(rules::specs::Certificate::portion_of))]
fn portion_of(asked: usize, left: usize, peer: u32) -> usize
    ensures { (result ≡ portion_of asked left peer) × ((result ≤ left) × (result ≤ portion_limit)) }
{
    let room = (peer as usize).saturating_sub(CERTIFICATE_HEAD);
    asked.min(left).min(room).min(PORTION_LIMIT)
}

#[tactic(auto, using(wire::proofs::Picks::picks), unfolding(rules::specs::Certificate::certificate_decision, rules::specs::Certificate::portion_decision))]
pub(crate) fn decide_certificate(image: &Image, s: State, r: &[u8]) -> Result<Accepted, Refusal>
    ensures { decided result ≡ certificate_decision (facts_in image.now) s r.now }
{
    if r.len() < CERTIFICATE_LAYOUT {
        return Err(invalid_request());
    }
    let slot = filled_slot(image, r[2] % 16)?;
    let long = image.chain_length(slot);
    let offset = usize::from(wire::get_u16le(r, 4));
    let asked = usize::from(wire::get_u16le(r, 6));
    if long <= offset || asked == 0 {
        return Err(invalid_request());
    }
    let left = long - offset;
    let portion = portion_of(asked, left, s.negotiated.peer);
    let message = Message::Certificate {
        slot,
        offset,
        portion,
        remainder: left - portion,
    };
    let exchange = complete(Part::B, CERTIFICATE_LAYOUT, CERTIFICATE_HEAD + portion);
    size_steps(s, message, exchange)
}
