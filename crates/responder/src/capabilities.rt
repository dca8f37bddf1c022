// CAPABILITIES.
ghost use Rattle.std.specs.Prelude.{◌≡◌};
ghost use Rattle.rules.specs.Capabilities.{flags_of, capabilities_bytes};
ghost use Rattle.responder.specs.Written.{Written};

use crate::source::Source;
use image::Index;
use rules::limits::{CAPABILITIES_CODE, MEASURING_FLAGS, MESSAGE_LIMIT, PLAIN_FLAGS, VERSION_11};

// Where the two sizes stand under 1.2.
const TRANSFER_SIZE_AT: usize = 12;

const MESSAGE_SIZE_AT: usize = 16;

#[tactic(auto, using(wire::proofs::Picks::picks))]
fn flags(ix: Index) -> u8
    ensures { result ≡ flags_of ix.measurements }
{
    if ix.measurements == 0 {
        return PLAIN_FLAGS;
    }
    MEASURING_FLAGS
}

#[tactic(auto, using(wire::proofs::Picks::picks, crate::proofs::RunLaws::runs), unfolding(rules::specs::Capabilities::capabilities_bytes, wire::specs::Pick::pick))]
pub(crate) fn write_capabilities(answer: &mut [u8], source: &Source)
    ensures { Written source.now answer.old answer.new 0 (λ c. capabilities_bytes c source.now.negotiated) }
{
    let index = source.image.index;
    let version = state::version_of(source.negotiated);
    let head = [
        version,
        CAPABILITIES_CODE,
        0,
        0,
        0,
        index.identity.exponent,
        0,
        0,
        flags(index),
        0,
        0,
        0,
    ];
    wire::copy_into(answer, 0, &head);
    if version == VERSION_11 {
        return;
    }
    wire::put_le(answer, TRANSFER_SIZE_AT, 4, MESSAGE_LIMIT);
    wire::put_le(answer, MESSAGE_SIZE_AT, 4, MESSAGE_LIMIT);
}
