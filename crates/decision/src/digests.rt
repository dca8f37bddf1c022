// GET_DIGESTS.
ghost use Rattle.std.specs.Prelude.{◌≡◌};
ghost use Rattle.rules.specs.Decision.{decided};
ghost use Rattle.rules.specs.Digests.{digests_decision};
ghost use Rattle.decision.specs.ImageFacts.{facts_in};

use super::sizes::digests_size;
use super::steps::{complete, size_steps};
use image_lookup::Image;
use rules::limits::HEADER_LENGTH;
use rules::{Accepted, Message, Part, Refusal, State};

#[tactic(auto, unfolding(rules::specs::Digests::digests_decision))]
pub(crate) fn decide_digests(image: &Image, s: State) -> Result<Accepted, Refusal>
    ensures { decided result ≡ digests_decision (facts_in image.now) s }
{
    let exchange = complete(Part::B, HEADER_LENGTH, digests_size(image));
    size_steps(s, Message::Digests, exchange)
}
