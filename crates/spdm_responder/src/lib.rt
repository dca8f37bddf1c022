// The responder as C calls it: slices are a pointer and a length, the state is nine words, and a result is number · 65,536 +
// answer length. Nothing is asked of a caller but lent memory: every length is tested.
#![tactic(auto)]

ghost use Rattle.std.specs.Prelude.{◌≡◌, ◌≤◌, length};
ghost use Rattle.wire.specs.Bytes.{splice};
ghost use Rattle.image.specs.Reading.{reading};
ghost use Rattle.rules.specs.Effects.{Effect, effect_by};
ghost use Rattle.rules.specs.Signing.{prefix_of, before_m, finish_by};
ghost use Rattle.rules.specs.Box.{Lent, lengths_of};
ghost use Rattle.rules.specs.Finish.{Finish};
ghost use Rattle.rules.specs.Reply.{Reply, replied};
ghost use Rattle.spdm_responder.specs.Words.{no_state, state_in, words_of, words_after, result_of, Fits, read_reply, chip_ok};
ghost use Rattle.spdm_responder.specs.Calls.{Asked, Signed};
ghost use Rattle.spdm_responder.specs.ToSign.{part_words, show_reply, shown_prefix, shown_parts, parts_of, Shown};
ghost use Rattle.spdm_responder.specs.ImageAlgorithms.{room_reply, told_in, algorithms_reply, algorithms_told, AlgorithmsTold};

use image::Index;
use rules::limits::{
    A_START, AWAITS_CHALLENGE, AWAITS_MEASUREMENTS, AWAITS_NOTHING, B_START, M_START, VERSION_11,
};
use rules::{Awaited, HostError, Negotiated, State, Used};

// The C interface's own sizes; those of the paper are rules'.
const STATE_WORDS: usize = 9;

const PREFIX_LENGTH: usize = 100;

const PART_WORDS: usize = 4;

const ALGORITHMS_WORDS: usize = 7;

const NUMBER_UNIT: u32 = 65536;

const NO_PHASE: u32 = 4;

// A state that is out of bounds for every image.
fn no_state() -> State
    ensures { result ≡ no_state }
{
    let fresh = state::fresh();
    State {
        negotiated: Negotiated {
            phase: NO_PHASE,
            ..fresh.negotiated
        },
        ..fresh
    }
}

// The state that the words hold. Its fields stay words, as C lends them: any may come, and number 14 tells of those that make no state.
#[tactic(auto, using(wire::proofs::Picks::picks), unfolding(crate::specs::Words::state_in))]
fn state_in(words: &[u32]) -> State
    ensures { result ≡ state_in words.now }
{
    let &[phase, peer, selection, a, b, m, whose, length, edition] = words else {
        return no_state();
    };
    State {
        negotiated: Negotiated {
            edition,
            phase,
            peer,
            selection,
        },
        used: Used { a, b, m },
        awaited: Awaited { whose, length },
    }
}

fn words_of(s: State) -> [u32; STATE_WORDS]
    ensures { result ≡ words_of s }
{
    [
        s.negotiated.phase,
        s.negotiated.peer,
        s.negotiated.selection,
        s.used.a,
        s.used.b,
        s.used.m,
        s.awaited.whose,
        s.awaited.length,
        s.negotiated.edition,
    ]
}

// Words at the start of a buffer. No copy_from_slice: that is compiled to memmove, which a C host need not have.
#[tactic(auto, using(crate::proofs::Stored::puts))]
fn put_words(buffer: &mut [u32], words: &[u32])
    requires { length words.now ≤ length buffer.old }
    ensures { buffer.new ≡ splice buffer.old 0 words.now }
{
    for (i, word) in words.iter().enumerate() {
        buffer[i] = *word;
    }
}

// Puts a state where the host keeps it; any other number of words stays as it is.
#[tactic(auto, using(wire::proofs::Picks::picks, crate::proofs::Stored::put_all), unfolding(crate::specs::Words::words_after))]
fn put_state(words: &mut [u32], s: State)
    ensures { words.new ≡ words_after words.old s }
{
    if words.len() == STATE_WORDS {
        put_words(words, &words_of(s));
    }
}

// What a call returns to the host.
fn result_of(reply: Result<usize, HostError>) -> u32
    requires { Fits (replied reply) }
    ensures { result ≡ result_of (replied reply) }
{
    match reply {
        Ok(length) => length as u32,
        Err(error) => error.number() * NUMBER_UNIT,
    }
}

// Answers one request.
#[unsafe(no_mangle)]
#[tactic(auto, using(crate::proofs::Replies::fits))]
pub extern "C" fn spdm_respond(
    image: &[u8],
    state: &mut [u32],
    transcript: &mut [u8],
    answer: &mut [u8],
    request: &[u8],
    nonce: &[u8],
) -> u32
    ensures { (
        let before : Lent = record { transcript = transcript.entry.now; answer = answer.old } in
        let after : Lent = record { transcript = transcript.exit.now; answer = answer.new } in
        let s : State = state_in state.old in
        let e : Effect = effect_by (reading image.now) s (lengths_of before) request.now nonce.now in
        Asked e state.old state.new before after result) }
{
    let s = state_in(state);
    let outcome = responder::respond(image, s, transcript, answer, request, nonce);
    put_state(state, outcome.state);
    result_of(outcome.reply)
}

// Finishes the awaited answer: chip is 0 where the chip failed, and the signature is not looked at then.
#[unsafe(no_mangle)]
#[tactic(auto, using(crate::proofs::Replies::fits))]
pub extern "C" fn spdm_finish(
    image: &[u8],
    state: &mut [u32],
    transcript: &[u8],
    answer: &mut [u8],
    chip: u32,
    signature: &[u8],
) -> u32
    ensures { (
        let before : Lent = record { transcript = transcript.entry.now; answer = answer.old } in
        let s : State = state_in state.old in
        let d : Finish = finish_by (reading image.now) s (lengths_of before) (chip_ok chip) (length signature.now) in
        Signed d state.old state.new answer.old answer.new signature.now result) }
{
    let s = state_in(state);
    let outcome = signing::finish(image, s, transcript, answer, chip != 0, signature);
    put_state(state, outcome.state);
    result_of(outcome.reply)
}

// The prefix's length: under 1.1, and where no signature is awaited, there is none.
#[tactic(auto, using(crate::proofs::ShownLaws::prefixes))]
fn prefix_shown(s: State) -> usize
    ensures { result ≡ length (prefix_of s.negotiated s.awaited.whose) }
{
    if state::version_of(s.negotiated) == VERSION_11 {
        return 0;
    }
    match s.awaited.whose {
        AWAITS_CHALLENGE | AWAITS_MEASUREMENTS => PREFIX_LENGTH,
        _ => 0,
    }
}

// The bytes of A that are hashed before M: under 1.1 none.
#[tactic(auto, using(wire::proofs::Picks::picks))]
fn used_before_m(s: State) -> u32
    ensures { result ≡ before_m s.negotiated 0 s.used.a }
{
    if state::version_of(s.negotiated) == VERSION_11 {
        0
    } else {
        s.used.a
    }
}

// Offset and length of A, then of B or M; under 1.1 nothing of A stands before M.
#[tactic(auto, using(wire::proofs::Picks::picks), unfolding(crate::specs::ToSign::parts_of, wire::specs::Bytes::splice))]
fn write_parts(s: State, parts: &mut [u32])
    requires { part_words ≤ length parts.old }
    ensures { parts.new ≡ splice parts.old 0 (parts_of s) }
{
    let Used { a, b, m } = s.used;
    let words = match s.awaited.whose {
        AWAITS_CHALLENGE => [A_START as u32, a, B_START as u32, b],
        AWAITS_MEASUREMENTS => [A_START as u32, used_before_m(s), M_START as u32, m],
        _ => return,
    };
    put_words(parts, &words);
}

// Writes what to hash and sign, and says the prefix's length.
#[tactic(auto, using(wire::proofs::Picks::picks), unfolding(crate::specs::ToSign::show_reply, wire::specs::Bytes::splice))]
fn show_to_sign(s: State, prefix: &mut [u8], parts: &mut [u32]) -> Result<usize, HostError>
    ensures reply { replied result ≡ show_reply s (length prefix.old) (length parts.old) }
    ensures prefix { prefix.new ≡ splice prefix.old 0 (shown_prefix (replied result) s) }
    ensures parts { parts.new ≡ splice parts.old 0 (shown_parts (replied result) s) }
{
    if prefix.len() < PREFIX_LENGTH || parts.len() < PART_WORDS {
        return Err(HostError::ShortAnswer);
    }
    if !state::own_bounds(s) {
        return Err(HostError::WrongState);
    }
    if s.awaited.whose == AWAITS_NOTHING {
        return Err(HostError::NothingAwaited);
    }
    signing::write_prefix(s, prefix);
    write_parts(s, parts);
    Ok(prefix_shown(s))
}

// What to hash and sign for the state that the host holds.
#[unsafe(no_mangle)]
#[tactic(auto, using(crate::proofs::Replies::fits))]
pub extern "C" fn spdm_to_sign(state: &[u32], prefix: &mut [u8], parts: &mut [u32]) -> u32
    ensures { (
        let s : State = state_in state.now in
        let y : Reply = show_reply s (length prefix.old) (length parts.old) in
        Shown y s prefix.old prefix.new parts.old parts.new result) }
{
    result_of(show_to_sign(state_in(state), prefix, parts))
}

// An accepted image is said by 0, as an answer of no bytes is.
#[tactic(auto, using(crate::proofs::Replies::reads))]
fn read(image: &[u8]) -> Result<usize, HostError>
    ensures { replied result ≡ read_reply (reading image.now) }
{
    image_reader::read_image(image)?;
    Ok(0)
}

// Whether an image is accepted: 0, or the number of its first fault.
#[unsafe(no_mangle)]
#[tactic(auto, using(crate::proofs::Replies::fits))]
pub extern "C" fn spdm_read_image(image: &[u8]) -> u32
    ensures { result ≡ result_of (read_reply (reading image.now)) }
{
    result_of(read(image))
}

// Writes what an index tells of its image, where there is room.
#[tactic(auto, using(wire::proofs::Picks::picks), unfolding(crate::specs::ImageAlgorithms::room_reply, wire::specs::Bytes::splice))]
fn write_algorithms(ix: Index, algorithms: &mut [u32]) -> Result<usize, HostError>
    ensures reply { replied result ≡ room_reply (length algorithms.old) }
    ensures words { algorithms.new ≡ splice algorithms.old 0 (told_in (replied result) ix) }
{
    if algorithms.len() < ALGORITHMS_WORDS {
        return Err(HostError::ShortAnswer);
    }
    let words = [
        u32::from(ix.identity.exponent),
        u32::from(ix.identity.hash),
        image::digest_size(ix.identity.hash) as u32,
        u32::from(ix.identity.signature),
        image::signature_size(ix.identity.signature) as u32,
        u32::from(image_lookup::slot_mask(ix)),
        u32::from(ix.measurements),
    ];
    put_words(algorithms, &words);
    Ok(0)
}

fn tell_algorithms(image: &[u8], algorithms: &mut [u32]) -> Result<usize, HostError>
    ensures reply { replied result ≡ algorithms_reply (reading image.now) (length algorithms.old) }
    ensures words { algorithms.new ≡ splice algorithms.old 0 (algorithms_told (reading image.now) (length algorithms.old)) }
{
    write_algorithms(image_reader::read_image(image)?, algorithms)
}

// What an image says of its algorithms, slots and measurements.
#[unsafe(no_mangle)]
#[tactic(auto, using(crate::proofs::Replies::fits))]
pub extern "C" fn spdm_image_algorithms(image: &[u8], algorithms: &mut [u32]) -> u32
    ensures { AlgorithmsTold (reading image.now) algorithms.old algorithms.new result }
{
    result_of(tell_algorithms(image, algorithms))
}
