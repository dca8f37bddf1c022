// The responder: one request in, one answer out. It tests everything itself.
#![tactic(auto)]

mod accept;
mod algorithms;
mod capabilities;
mod certificate;
mod challenge;
mod digests;
mod measurements;
mod messages;
mod refuse;
mod source;
mod version;
mod zeros;

ghost use Rattle.std.specs.Prelude.{length};
ghost use Rattle.image.specs.Contents.{Contents};
ghost use Rattle.image.specs.Reading.{reading};
ghost use Rattle.image.specs.Read.{ReadAs, Known};
ghost use Rattle.rules.specs.Facts.{facts_of};
ghost use Rattle.rules.specs.Decision.{Decision};
ghost use Rattle.rules.specs.Decisions.{decision_of};
ghost use Rattle.rules.specs.Effects.{Effect, effect_of, effect_by};
ghost use Rattle.rules.specs.Box.{Lent, lengths_of, Responded};

use image_lookup::Image;
use rules::{Lengths, Outcome, Refusal, State};
use source::Source;

// A request on an image that was accepted: decided first, then carried out.
fn answer_request(
    image: &Image,
    s: State,
    transcript: &mut [u8],
    answer: &mut [u8],
    request: &[u8],
    nonce: &[u8],
) -> Outcome
    requires { Known image.now.bytes.now image.now.index }
    ensures { ((c : Contents) → ReadAs image.now.bytes.now image.now.index c →
        let before : Lent = record { transcript = transcript.entry.now; answer = answer.old } in
        let after : Lent = record { transcript = transcript.exit.now; answer = answer.new } in
        let d : Decision = decision_of (facts_of c) s (lengths_of before) (length nonce.now) request.now in
        Responded (effect_of d c s nonce.now request.now) s before after result) }
{
    let lent = Lengths {
        transcript: transcript.len(),
        answer: answer.len(),
    };
    match decision::decide(image, s, lent, nonce.len(), request) {
        Err(Refusal::Host(error)) => Outcome {
            reply: Err(error),
            state: s,
        },
        Err(Refusal::Request(refused)) => refuse::refuse(s, answer, request, refused),
        Ok(accepted) => {
            let source = Source {
                image: *image,
                nonce,
                negotiated: accepted.negotiated,
            };
            messages::write_message(answer, &source, accepted.message);
            accept::accept(s, accepted, transcript, answer, request)
        }
    }
}

// Answers one request: writes the answer, appends the exchange to the transcript, and gives the next state.
pub fn respond(
    image: &[u8],
    s: State,
    transcript: &mut [u8],
    answer: &mut [u8],
    request: &[u8],
    nonce: &[u8],
) -> Outcome
    ensures { (
        let before : Lent = record { transcript = transcript.entry.now; answer = answer.old } in
        let after : Lent = record { transcript = transcript.exit.now; answer = answer.new } in
        let e : Effect = effect_by (reading image.now) s (lengths_of before) request.now nonce.now in
        Responded e s before after result) }
{
    match image_reader::read_image(image) {
        Err(fault) => Outcome {
            reply: Err(fault.into()),
            state: s,
        },
        Ok(index) => answer_request(
            &Image {
                bytes: image,
                index,
            },
            s,
            transcript,
            answer,
            request,
            nonce,
        ),
    }
}
