// The provisioning image: the types that its reader and its lookups share, the sizes that its codes stand for, and the tests of a slot's
// number and of a measurement's index. What an image is, and what reading it gives, is in specs/.
#![tactic(auto)]

pub mod limits;

ghost use Rattle.std.specs.Prelude.{◌≡◌, ◌≤◌, get_or};
ghost use Rattle.image.specs.Sizes.{digest_size, signature_size, digest_most, signature_most};
ghost use Rattle.image.specs.Fault.{number_of};
ghost use Rattle.image.specs.Index.{slot_number_of, measurement_index_of};

use limits::{
    BROKEN_RECORD, INDEX_LIMIT, SLOT_COUNT, SLOT_LIMIT, TOO_MANY, WRONG_FIELD, WRONG_KIND,
    WRONG_LENGTH, WRONG_OWN_LENGTH, WRONG_SIZE, WRONG_VERSION,
};

const DIGEST_SIZES: [u16; 6] = [32, 48, 64, 32, 48, 64];

const SIGNATURE_SIZES: [u16; 9] = [256, 256, 384, 384, 64, 512, 512, 96, 132];

// The entry of a bit number, 0 where there is none.
fn entry(sizes: &[u16], bit: u8) -> usize
    ensures { result ≡ get_or sizes.now bit 0 }
{
    sizes
        .get(usize::from(bit))
        .map_or(0, |&size| usize::from(size))
}

// The bytes of a digest of the hash with that bit number, 0 where there is none.
#[tactic(auto, using(crate::proofs::Sizes::digest_past), unfolding(crate::specs::Sizes::digest_size))]
pub fn digest_size(hash: u8) -> usize
    ensures { (result ≡ digest_size hash) × (result ≤ digest_most) }
{
    entry(&DIGEST_SIZES, hash)
}

// The bytes of a signature of the algorithm with that bit number, 0 where there is none.
#[tactic(auto, using(crate::proofs::Sizes::signature_past), unfolding(crate::specs::Sizes::signature_size))]
pub fn signature_size(signature: u8) -> usize
    ensures { (result ≡ signature_size signature) × (result ≤ signature_most) }
{
    entry(&SIGNATURE_SIZES, signature)
}

// The number of a slot, 0 to 7: made only after its test. It and a measurement's index are two kinds of number, so two types.
#[derive(Clone, Copy)]
pub struct SlotNumber(u8);

impl SlotNumber {
    #[tactic(auto, using(wire::proofs::Picks::picks), unfolding(crate::specs::Index::slot_number_of))]
    pub fn new(b: u8) -> Option<SlotNumber>
        ensures { result ≡ slot_number_of b }
    {
        if SLOT_LIMIT < b {
            return None;
        }
        Some(SlotNumber(b))
    }
}

impl From<SlotNumber> for u8 {
    ghost from_gives = { λ n b. b ≡ n.0 };

    fn from(n: SlotNumber) -> u8 {
        n.0
    }
}

// The index of a measurement, 1 to 239: made only after its test.
#[derive(Clone, Copy)]
pub struct MeasurementIndex(u8);

impl MeasurementIndex {
    #[tactic(auto, using(wire::proofs::Picks::picks), unfolding(crate::specs::Index::measurement_index_of))]
    pub fn new(b: u8) -> Option<MeasurementIndex>
        ensures { result ≡ measurement_index_of b }
    {
        if b == 0 {
            return None;
        }
        if INDEX_LIMIT < b {
            return None;
        }
        Some(MeasurementIndex(b))
    }
}

impl From<MeasurementIndex> for u8 {
    ghost from_gives = { λ i b. b ≡ i.0 };

    fn from(i: MeasurementIndex) -> u8 {
        i.0
    }
}

// What the identity record holds: CTExponent, and the bit numbers of BaseHashAlgo and BaseAsymAlgo. They are bytes, no enums: the tests
// of the record and the sizes of a digest and a signature promise their answers of any.
#[derive(Clone, Copy)]
pub struct Identity {
    pub exponent: u8,
    pub hash: u8,
    pub signature: u8,
}

// What is kept of an accepted image: its identity, how many chains and measurements it has, where the record of each
// slot's chain has its body (0: not filled), and where the first measurement has its body. No Option: it would be twice as large, and an
// index is handed on by value; the lookups promise their answers of any place.
#[derive(Clone, Copy)]
pub struct Index {
    pub identity: Identity,
    pub chains: u8,
    pub measurements: u8,
    pub places: [u16; SLOT_COUNT],
    pub first: u16,
}

// Why an image is refused.
#[derive(Clone, Copy, PartialEq, Eq)]
pub enum Fault {
    // empty, or longer than the limit
    WrongSize,
    WrongVersion,
    // one or two bytes left for a record's head, or a body that runs past the end
    BrokenRecord,
    // unknown, out of sequence, or a needed record missing
    WrongKind,
    TooMany,
    WrongLength,
    // out of range or not rising
    WrongField,
    // a chain's own length field differs
    WrongOwnLength,
}

impl Fault {
    // The number that the host sees.
    pub fn number(self) -> u8
        ensures { result ≡ number_of self }
    {
        match self {
            Fault::WrongSize => WRONG_SIZE,
            Fault::WrongVersion => WRONG_VERSION,
            Fault::BrokenRecord => BROKEN_RECORD,
            Fault::WrongKind => WRONG_KIND,
            Fault::TooMany => TOO_MANY,
            Fault::WrongLength => WRONG_LENGTH,
            Fault::WrongField => WRONG_FIELD,
            Fault::WrongOwnLength => WRONG_OWN_LENGTH,
        }
    }
}

// What the tests of a record need of the records before it.
#[derive(Clone, Copy)]
pub struct Seen {
    pub size: u8,
    pub chains: u8,
    pub slot: u8,
    pub measurements: u8,
    pub index: u8,
    pub summaries: u8,
}
