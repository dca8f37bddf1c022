// CERTIFICATE.
ghost use Rattle.rules.specs.Certificate.{certificate_bytes};
ghost use Rattle.responder.specs.Written.{Written};

use crate::source::Source;
use image::SlotNumber;
use rules::limits::{CERTIFICATE_CODE, CERTIFICATE_HEAD, HEADER_LENGTH};

#[tactic(auto, using(crate::proofs::KnownLaws::contents), unfolding(rules::specs::Certificate::certificate_bytes))]
pub(crate) fn write_certificate(
    answer: &mut [u8],
    source: &Source,
    slot: SlotNumber,
    offset: usize,
    portion: usize,
    remainder: usize,
)
    ensures { Written source.now answer.old answer.new 0
        (λ c. certificate_bytes c source.now.negotiated slot.0 offset portion remainder) }
{
    let version = state::version_of(source.negotiated);
    let head = [version, CERTIFICATE_CODE, u8::from(slot), 0];
    wire::copy_into(answer, 0, &head);
    wire::put_le(answer, HEADER_LENGTH, 2, portion);
    wire::put_le(answer, HEADER_LENGTH + 2, 2, remainder);
    wire::copy_into(
        answer,
        CERTIFICATE_HEAD,
        source.image.chain_part(slot, offset, portion),
    );
}
