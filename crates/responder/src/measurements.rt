// MEASUREMENTS.
ghost use Rattle.std.specs.Prelude.{◌≡◌, ◌+◌, ◌-◌, ◌≤◌, length, true};
ghost use Rattle.wire.specs.Bytes.{splice};
ghost use Rattle.image.specs.Contents.{Contents};
ghost use Rattle.decision.specs.ImageFacts.{facts_in};
ghost use Rattle.rules.specs.Limits.{message_limit};
ghost use Rattle.rules.specs.Measurements.{operation_fits, block_bytes, blocks_of, record_of, count_shown, slot_shown, measurements_bytes};
ghost use Rattle.image.specs.Sizes.{digest_size, digest_most};
ghost use Rattle.image.specs.Index.{index_of};
ghost use Rattle.responder.specs.Written.{Written};

use crate::source::Source;
use decision::sizes::{BLOCK_HEAD, block_count};
use image::limits::LABEL_LENGTH;
use image::{Index, SlotNumber};
use rules::Operation;
use rules::limits::{MEASUREMENTS_CODE, NONCE_LENGTH};

// Where the record's length stands, and the record.
const RECORD_LENGTH_AT: usize = 5;

const RECORD_AT: usize = 8;

// What a block's value has beside its digest: its type and size. The block itself has its index before it, the specification and its size.
const VALUE_HEAD: usize = 3;

// A block of a measurement that is given as index, type and digest.
#[tactic(auto, using(crate::proofs::MeasurementsLaws::blocks))]
fn write_block(answer: &mut [u8], at: usize, body: &[u8])
    requires { (at ≤ message_limit) × ((2 ≤ length body.now) × (length body.now ≤ 2 + digest_most)) }
    ensures { answer.new ≡ splice answer.old at (block_bytes (length body.now - 2) body.now) }
{
    let digest = &body[LABEL_LENGTH..];
    let h = digest.len();
    // H is at most 64: one byte of each size says it
    let head = [body[0], 1, (VALUE_HEAD + h) as u8, 0, body[1], h as u8, 0];
    wire::copy_into(answer, at, &head);
    wire::copy_into(answer, at + head.len(), digest);
}

#[tactic(auto, using(crate::proofs::KnownLaws::measuring))]
fn write_all_blocks(answer: &mut [u8], source: &Source)
    ensures { Written source.now answer.old answer.new 8 (λ c. blocks_of (digest_size c.identity.hash) c.measurements) }
{
    let image = source.image;
    let h = image::digest_size(image.index.identity.hash);
    for k in 0..usize::from(image.index.measurements) {
        let at = RECORD_AT + k * (BLOCK_HEAD + h);
        write_block(answer, at, image.nth_measurement(k));
    }
}

#[tactic(auto, using(crate::proofs::KnownLaws::measuring), unfolding(wire::specs::Bytes::splice))]
fn write_record(answer: &mut [u8], source: &Source, o: Operation)
    requires { operation_fits (facts_in source.now.image) o ≡ true }
    ensures { Written source.now answer.old answer.new 8 (λ c. record_of c o) }
{
    match o {
        Operation::Count => {}
        Operation::All => write_all_blocks(answer, source),
        Operation::One(index) => write_block(answer, RECORD_AT, source.image.measurement(index)),
    }
}

fn count_shown(ix: Index, o: Operation) -> u8
    ensures { (c : Contents) → ix ≡ index_of c → result ≡ count_shown c o }
{
    match o {
        Operation::Count => ix.measurements,
        Operation::All | Operation::One(_) => 0,
    }
}

fn slot_shown(signer: Option<SlotNumber>) -> u8
    ensures { result ≡ slot_shown signer }
{
    signer.map_or(0, u8::from)
}

#[tactic(auto, using(crate::proofs::KnownLaws::measuring), unfolding(rules::specs::Measurements::measurements_bytes))]
pub(crate) fn write_measurements(
    answer: &mut [u8],
    source: &Source,
    o: Operation,
    signer: Option<SlotNumber>,
)
    requires { operation_fits (facts_in source.now.image) o ≡ true }
    ensures { Written source.now answer.old answer.new 0
        (λ c. measurements_bytes c source.now.nonce.now source.now.negotiated o signer) }
{
    let index = source.image.index;
    let blocks = block_count(index, o);
    let long = usize::from(blocks) * (BLOCK_HEAD + image::digest_size(index.identity.hash));
    let head = [
        state::version_of(source.negotiated),
        MEASUREMENTS_CODE,
        count_shown(index, o),
        slot_shown(signer),
        blocks,
    ];
    wire::copy_into(answer, 0, &head);
    wire::put_le(answer, RECORD_LENGTH_AT, 3, long);
    write_record(answer, source, o);
    let at = RECORD_AT + long;
    wire::copy_into(answer, at, source.nonce);
    wire::put_le(answer, at + NONCE_LENGTH, 2, 0);
}
