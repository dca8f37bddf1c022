// How long answers are without their signatures. Of any index the number is the definition's.
ghost use Rattle.std.specs.Prelude.{◌≡◌, ◌<◌};
ghost use Rattle.rules.specs.Digests.{digests_size};
ghost use Rattle.rules.specs.Challenge.{challenge_size};
ghost use Rattle.rules.specs.Measurements.{block_count, measurements_size};
ghost use Rattle.decision.specs.ImageFacts.{facts_in};

use image::Index;
use image_lookup::Image;
use rules::Operation;
use rules::limits::{HEADER_LENGTH, NONCE_LENGTH};

// The number of blocks, and the record's length.
const RECORD_HEAD: usize = 4;

// What a measurement block has beside its digest.
pub const BLOCK_HEAD: usize = 7;

// The length of the opaque data, which is none.
const OPAQUE_LENGTH: usize = 2;

// DIGESTS.
pub(crate) fn digests_size(image: &Image) -> usize
    ensures { (result ≡ digests_size (facts_in image.now)) × (result < 65536) }
{
    HEADER_LENGTH + usize::from(image.index.chains) * image::digest_size(image.index.identity.hash)
}

// CHALLENGE_AUTH.
#[tactic(auto, using(wire::proofs::Picks::picks))]
pub(crate) fn challenge_size(image: &Image, x: u8) -> usize
    ensures { (result ≡ challenge_size (facts_in image.now) x) × (result < 65536) }
{
    let digest = image::digest_size(image.index.identity.hash);
    let summary = if x == 0 { 0 } else { digest };
    HEADER_LENGTH + digest + NONCE_LENGTH + summary + OPAQUE_LENGTH
}

// How many measurement blocks MEASUREMENTS has.
pub fn block_count(ix: Index, o: Operation) -> u8
    ensures { result ≡ block_count ix.measurements o }
{
    match o {
        Operation::Count => 0,
        Operation::All => ix.measurements,
        Operation::One(_) => 1,
    }
}

// MEASUREMENTS.
pub(crate) fn measurements_size(image: &Image, o: Operation) -> usize
    ensures { (result ≡ measurements_size (facts_in image.now) o) × (result < 65536) }
{
    let block = BLOCK_HEAD + image::digest_size(image.index.identity.hash);
    let blocks = usize::from(block_count(image.index, o)) * block;
    HEADER_LENGTH + RECORD_HEAD + blocks + NONCE_LENGTH + OPAQUE_LENGTH
}
