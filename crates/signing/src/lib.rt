// What gets signed, and finishing.
#![tactic(auto)]

ghost use Rattle.std.specs.Prelude.{◌≡◌, List, ◌++◌, ℕ, length};
ghost use Rattle.wire.specs.Bytes.{splice};
ghost use Rattle.image.specs.Reading.{reading};
ghost use Rattle.rules.specs.Facts.{facts_at};
ghost use Rattle.rules.specs.Finish.{Finish};
ghost use Rattle.rules.specs.Signing.{spdm_text, prefix_of, finish_of, finish_by};
ghost use Rattle.rules.specs.Parts.{kept_by_finishing, kept_used};
ghost use Rattle.rules.specs.Box.{Lent, lengths_of, signed_first, signed_second, emptied_state, Finished};
ghost use Rattle.signing.specs.Told.{finish_told};

use image::Index;
use rules::limits::{
    A_START, AWAITS_CHALLENGE, AWAITS_MEASUREMENTS, AWAITS_NOTHING, B_START, ERROR_CODE,
    HEADER_LENGTH, M_START, MESSAGE_LIMIT, TRANSCRIPT_LENGTH, UNSPECIFIED, VERSION_11,
};
use rules::{HostError, Lengths, Outcome, State, Used};

// Where the context stands in a prefix, behind the four texts.
const CONTEXT_START: usize = 64;

// The prefix that is signed before the hash, for the awaited signature; nothing under 1.1, or where none is awaited.
pub fn write_prefix(s: State, out: &mut [u8])
    ensures { out.new ≡ splice out.old 0 (prefix_of s.negotiated s.awaited.whose) }
{
    if state::version_of(s.negotiated) == VERSION_11 {
        return;
    }
    match s.awaited.whose {
        AWAITS_CHALLENGE => {
            write_texts(out);
            wire::copy_into(
                out,
                CONTEXT_START,
                b"\x00\x00\x00\x00responder-challenge_auth signing",
            );
        }
        AWAITS_MEASUREMENTS => {
            write_texts(out);
            wire::copy_into(
                out,
                CONTEXT_START,
                b"\x00\x00\x00\x00\x00\x00responder-measurements signing",
            );
        }
        _ => {}
    }
}

// The text that stands four times at the start of every prefix.
fn write_texts(out: &mut [u8])
    ensures { out.new ≡ splice out.old 0 (spdm_text ++ spdm_text ++ spdm_text ++ spdm_text) }
{
    wire::copy_into(
        out,
        0,
        b"dmtf-spdm-v1.2.*dmtf-spdm-v1.2.*dmtf-spdm-v1.2.*dmtf-spdm-v1.2.*",
    );
}

// The first part of the transcript to hash: A, as a part of the lent buffer; under 1.1 nothing before M.
#[tactic(auto, using(wire::proofs::Picks::picks), unfolding(rules::specs::Box::signed_first))]
pub fn first_part(s: State, transcript: &[u8]) -> &[u8]
    ensures { result.now ≡ signed_first s transcript.now }
{
    let part = wire::part_of(transcript, A_START, s.used.a as usize);
    match s.awaited.whose {
        AWAITS_CHALLENGE => part,
        AWAITS_MEASUREMENTS if state::version_of(s.negotiated) != VERSION_11 => part,
        _ => &[],
    }
}

// The second part: B, or M.
#[tactic(auto, using(wire::proofs::Picks::picks), unfolding(rules::specs::Box::signed_second))]
pub fn second_part(s: State, transcript: &[u8]) -> &[u8]
    ensures { result.now ≡ signed_second s transcript.now }
{
    match s.awaited.whose {
        AWAITS_CHALLENGE => wire::part_of(transcript, B_START, s.used.b as usize),
        AWAITS_MEASUREMENTS => wire::part_of(transcript, M_START, s.used.m as usize),
        _ => &[],
    }
}

// How an awaited answer ends: with its signature, or as an ERROR where the chip failed.
#[derive(Clone, Copy)]
enum Ending {
    Signed,
    Failed,
}

#[tactic(auto, using(wire::proofs::Picks::picks), unfolding(rules::specs::Signing::finish_of))]
fn decide_finish(
    ix: Index,
    s: State,
    lent: Lengths,
    ok: bool,
    size: usize,
) -> Result<Ending, HostError>
    ensures { (b : List ℕ) → finish_told result ≡ finish_of (facts_at b ix) s lent ok size }
{
    if lent.answer < MESSAGE_LIMIT {
        return Err(HostError::ShortAnswer);
    }
    if lent.transcript < TRANSCRIPT_LENGTH {
        return Err(HostError::ShortTranscript);
    }
    if !state::in_bounds(ix.measurements, ix.identity.signature, s) {
        return Err(HostError::WrongState);
    }
    if s.awaited.whose == AWAITS_NOTHING {
        return Err(HostError::NothingAwaited);
    }
    if !ok {
        return Ok(Ending::Failed);
    }
    if size != image::signature_size(ix.identity.signature) {
        return Err(HostError::WrongSignature);
    }
    Ok(Ending::Signed)
}

// What a finishing keeps of the parts, by whose signature it was.
#[tactic(auto, unfolding(wire::specs::Pick::pick))]
fn kept(whose: u32, u: Used) -> Used
    ensures { result ≡ kept_used (kept_by_finishing whose) u }
{
    if whose == AWAITS_CHALLENGE {
        return Used { b: 0, ..u };
    }
    Used { m: 0, ..u }
}

// B (or M) is emptied, and nothing is awaited.
fn emptied(s: State) -> State
    ensures { result ≡ emptied_state s }
{
    State {
        used: kept(s.awaited.whose, s.used),
        awaited: state::fresh().awaited,
        ..s
    }
}

fn finish_answer(
    ix: Index,
    s: State,
    lent: Lengths,
    answer: &mut [u8],
    ok: bool,
    signature: &[u8],
) -> Outcome
    ensures { ((b : List ℕ) →
        let d : Finish = finish_of (facts_at b ix) s lent ok (length signature.now) in
        Finished d s answer.old answer.new signature.now result) }
{
    match decide_finish(ix, s, lent, ok, signature.len()) {
        Err(error) => Outcome {
            reply: Err(error),
            state: s,
        },
        Ok(Ending::Signed) => {
            let length = s.awaited.length as usize;
            wire::copy_into(answer, length - signature.len(), signature);
            Outcome {
                reply: Ok(length),
                state: emptied(s),
            }
        }
        Ok(Ending::Failed) => {
            let version = state::version_of(s.negotiated);
            wire::copy_into(answer, 0, &[version, ERROR_CODE, UNSPECIFIED, 0]);
            Outcome {
                reply: Ok(HEADER_LENGTH),
                state: emptied(s),
            }
        }
    }
}

// Finishes the awaited answer with the chip's signature, or with an ERROR where the chip failed. No Option of a signature: the promise is of
// any pair, and where the chip failed any signature passes.
pub fn finish(
    image: &[u8],
    s: State,
    transcript: &[u8],
    answer: &mut [u8],
    ok: bool,
    signature: &[u8],
) -> Outcome
    ensures { (
        let before : Lent = record { transcript = transcript.entry.now; answer = answer.old } in
        let d : Finish = finish_by (reading image.now) s (lengths_of before) ok (length signature.now) in
        Finished d s answer.old answer.new signature.now result) }
{
    let lent = Lengths {
        transcript: transcript.len(),
        answer: answer.len(),
    };
    match image_reader::read_image(image) {
        Err(fault) => Outcome {
            reply: Err(fault.into()),
            state: s,
        },
        Ok(index) => finish_answer(index, s, lent, answer, ok, signature),
    }
}
