// CHALLENGE_AUTH.
ghost use Rattle.std.specs.Prelude.{◌≡◌, [], eqb};
ghost use Rattle.wire.specs.Pick.{pick};
ghost use Rattle.image.specs.Index.{summary_at};
ghost use Rattle.rules.specs.Limits.{tcb_measurements};
ghost use Rattle.rules.specs.Challenge.{challenge_bytes};
ghost use Rattle.responder.specs.Written.{Written};

use crate::source::Source;
use image::SlotNumber;
use image_lookup::Image;
use rules::limits::{CHALLENGE_CODE, HEADER_LENGTH, NONCE_LENGTH, TCB_MEASUREMENTS};

// The summary hash that Param2 asks for, none for 0.
#[tactic(auto, using(wire::proofs::Picks::picks))]
fn summary_asked<'a>(image: &Image<'a>, x: u8) -> &'a [u8]
    ensures { result.now ≡ pick (eqb x 0) []
        (pick (eqb x tcb_measurements) (summary_at image.now.bytes.now image.now.index 0)
        (summary_at image.now.bytes.now image.now.index 1)) }
{
    if x == 0 {
        return &[];
    }
    if x == TCB_MEASUREMENTS {
        return image.tcb_summary();
    }
    image.full_summary()
}

#[tactic(auto, using(crate::proofs::KnownLaws::contents), unfolding(rules::specs::Challenge::challenge_bytes))]
pub(crate) fn write_challenge(answer: &mut [u8], source: &Source, slot: SlotNumber, x: u8)
    ensures { Written source.now answer.old answer.new 0
        (λ c. challenge_bytes c source.now.nonce.now source.now.negotiated slot.0 x) }
{
    let image = source.image;
    let head = [
        state::version_of(source.negotiated),
        CHALLENGE_CODE,
        u8::from(slot),
        image_lookup::slot_mask(image.index),
    ];
    wire::copy_into(answer, 0, &head);
    let digest = image.digest(slot);
    wire::copy_into(answer, HEADER_LENGTH, digest);
    let at = HEADER_LENGTH + digest.len();
    wire::copy_into(answer, at, source.nonce);
    let summary = summary_asked(&image, x);
    wire::copy_into(answer, at + NONCE_LENGTH, summary);
    wire::put_le(answer, at + NONCE_LENGTH + summary.len(), 2, 0);
}
