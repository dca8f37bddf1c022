// DIGESTS.
ghost use Rattle.std.specs.Prelude.{◌≡◌, ◌+◌, ◌≤◌, length};
ghost use Rattle.wire.specs.Bytes.{splice};
ghost use Rattle.image.specs.Index.{digest_at};
ghost use Rattle.rules.specs.Limits.{message_limit};
ghost use Rattle.rules.specs.Digests.{digests_bytes};
ghost use Rattle.responder.specs.Written.{Written};

use crate::source::Source;
use image::SlotNumber;
use image::limits::SLOT_LIMIT;
use image_lookup::Image;
use rules::limits::{DIGESTS_CODE, HEADER_LENGTH};

// The digest of a slot behind what stands there, none where the slot is not filled; the place behind it.
#[tactic(auto, using(crate::proofs::KnownLaws::slots), unfolding(wire::specs::Bytes::splice))]
fn write_digest(answer: &mut [u8], at: usize, image: &Image, slot: u8) -> usize
    requires { at ≤ message_limit }
    ensures { (answer.new ≡ splice answer.old at (digest_at image.now.bytes.now image.now.index slot))
        × (result ≡ at + length (digest_at image.now.bytes.now image.now.index slot)) }
{
    let Some(k) = SlotNumber::new(slot) else {
        return at;
    };
    let digest = image.digest(k);
    // most slots are not filled, and a copy of no bytes is a call
    if digest.is_empty() {
        return at;
    }
    wire::copy_into(answer, at, digest);
    at + digest.len()
}

#[tactic(auto, using(crate::proofs::KnownLaws::joining), unfolding(rules::specs::Digests::digests_bytes))]
pub(crate) fn write_digests(answer: &mut [u8], source: &Source)
    ensures { Written source.now answer.old answer.new 0 (λ c. digests_bytes c source.now.negotiated) }
{
    let version = state::version_of(source.negotiated);
    let mask = image_lookup::slot_mask(source.image.index);
    wire::copy_into(answer, 0, &[version, DIGESTS_CODE, 0, mask]);
    let mut at = HEADER_LENGTH;
    for slot in 0..=SLOT_LIMIT {
        at = write_digest(answer, at, &source.image, slot);
    }
}
