// The answers: one writer a message. Each leaves its signature off.
ghost use Rattle.decision.specs.ImageFacts.{facts_in};
ghost use Rattle.rules.specs.Messages.{message_bytes};
ghost use Rattle.rules.proofs.Told.{Fields};
ghost use Rattle.responder.specs.Written.{Written};

use crate::algorithms::write_algorithms;
use crate::capabilities::write_capabilities;
use crate::certificate::write_certificate;
use crate::challenge::write_challenge;
use crate::digests::write_digests;
use crate::measurements::write_measurements;
use crate::source::Source;
use crate::version::write_version;
use rules::Message;

#[tactic(auto, unfolding(rules::specs::Messages::message_bytes))]
pub(crate) fn write_message(answer: &mut [u8], source: &Source, m: Message)
    requires { Fields (facts_in source.now.image) source.now.negotiated m }
    ensures { Written source.now answer.old answer.new 0
        (λ c. message_bytes c source.now.nonce.now source.now.negotiated m) }
{
    match m {
        Message::Version => write_version(answer, source.negotiated),
        Message::Capabilities => write_capabilities(answer, source),
        Message::Algorithms => write_algorithms(answer, source),
        Message::Digests => write_digests(answer, source),
        Message::Certificate {
            slot,
            offset,
            portion,
            remainder,
        } => write_certificate(answer, source, slot, offset, portion, remainder),
        Message::Challenge { slot, summary } => write_challenge(answer, source, slot, summary),
        Message::Measurements { operation, signer } => {
            write_measurements(answer, source, operation, signer)
        }
    }
}
