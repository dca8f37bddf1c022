// CHALLENGE.
ghost use Rattle.std.specs.Prelude.{◌≡◌};
ghost use Rattle.decision.specs.ImageFacts.{facts_in};
ghost use Rattle.rules.specs.Decision.{decided};
ghost use Rattle.rules.specs.Challenge.{summary_fits, challenge_decision};

use super::sizes::challenge_size;
use super::steps::{filled_slot, invalid_request, size_steps};
use image_lookup::Image;
use rules::limits::{ALL_MEASUREMENTS, AWAITS_CHALLENGE, CHALLENGE_LAYOUT, TCB_MEASUREMENTS};
use rules::{Accepted, Exchange, Message, Negotiated, Part, Refusal, State};

#[tactic(auto, using(wire::proofs::Picks::picks), unfolding(rules::specs::Challenge::summary_fits))]
fn summary_fits(n: Negotiated, x: u8) -> bool
    ensures { result ≡ summary_fits n x }
{
    match x {
        0 => true,
        TCB_MEASUREMENTS | ALL_MEASUREMENTS => n.selection != 0,
        _ => false,
    }
}

#[tactic(auto, using(wire::proofs::Picks::picks), unfolding(rules::specs::Challenge::challenge_decision))]
pub(crate) fn decide_challenge(image: &Image, s: State, r: &[u8]) -> Result<Accepted, Refusal>
    ensures { decided result ≡ challenge_decision (facts_in image.now) s r.now }
{
    if r.len() < CHALLENGE_LAYOUT {
        return Err(invalid_request());
    }
    let slot = filled_slot(image, r[2])?;
    let summary = r[3];
    if !summary_fits(s.negotiated, summary) {
        return Err(invalid_request());
    }
    let exchange = Exchange {
        part: Part::B,
        layout: CHALLENGE_LAYOUT,
        length: challenge_size(image, summary),
        signature: image::signature_size(image.index.identity.signature),
        whose: AWAITS_CHALLENGE,
    };
    size_steps(s, Message::Challenge { slot, summary }, exchange)
}
