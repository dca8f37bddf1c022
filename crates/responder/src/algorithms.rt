// ALGORITHMS.
ghost use Rattle.std.specs.Prelude.{◌≡◌, ◌+◌, ◌*◌, ◌^◌, ◌≤◌};
ghost use Rattle.wire.specs.Bytes.{splice};
ghost use Rattle.image.specs.Limits.{hash_limit, signature_limit};
ghost use Rattle.rules.specs.Algorithms.{algorithms_bytes};
ghost use Rattle.responder.specs.Bits.{bits_bytes};
ghost use Rattle.responder.specs.Written.{Written};

use crate::source::Source;
use crate::zeros::write_zeros;
use image::Identity;
use rules::limits::{ALGORITHMS_CODE, ALGORITHMS_LENGTH, HEADER_LENGTH};

// Where the length stands, the measurement specification, what is selected of each kind, and the rest.
const LENGTH_AT: usize = HEADER_LENGTH;

const SPECIFICATION_AT: usize = 6;

const MEASUREMENT_HASH_AT: usize = 8;

const SIGNATURE_AT: usize = 12;

const HASH_AT: usize = 16;

const REST_AT: usize = 20;

const REST_LENGTH: usize = ALGORITHMS_LENGTH - REST_AT;

// The number whose one bit is n.
fn bit(n: u8) -> usize
    requires { n ≤ 8 }
    ensures { result ≡ 2 ^ n }
{
    1 << n
}

// MeasurementHashAlgo: a bit where the specification is selected.
fn measurement_hash(hash: u8, selection: u32) -> usize
    requires { (hash ≤ 5) × (selection ≤ 1) }
    ensures { result ≡ selection * 2 ^ (hash + 1) }
{
    selection as usize * bit(hash + 1)
}

// From MeasurementHashAlgo on: our bits, and the rest.
#[tactic(auto, using(crate::proofs::AlgorithmLaws::bits))]
fn write_bits(answer: &mut [u8], id: Identity, selection: u32)
    requires { (id.hash ≤ hash_limit) × ((id.signature ≤ signature_limit) × (selection ≤ 1)) }
    ensures { answer.new ≡ splice answer.old 8 (bits_bytes id selection) }
{
    wire::put_le(
        answer,
        MEASUREMENT_HASH_AT,
        4,
        measurement_hash(id.hash, selection),
    );
    wire::put_le(answer, SIGNATURE_AT, 4, bit(id.signature));
    wire::put_le(answer, HASH_AT, 4, bit(id.hash));
    write_zeros(answer, REST_AT, REST_LENGTH);
}

#[tactic(auto, using(crate::proofs::AlgorithmLaws::algorithms))]
pub(crate) fn write_algorithms(answer: &mut [u8], source: &Source)
    requires { source.now.negotiated.selection ≤ 1 }
    ensures { Written source.now answer.old answer.new 0 (λ c. algorithms_bytes c source.now.negotiated) }
{
    let n = source.negotiated;
    wire::copy_into(answer, 0, &[state::version_of(n), ALGORITHMS_CODE, 0, 0]);
    wire::put_le(answer, LENGTH_AT, 2, ALGORITHMS_LENGTH);
    wire::copy_into(answer, SPECIFICATION_AT, &[n.selection as u8, 0]);
    write_bits(answer, source.image.index.identity, n.selection);
}
