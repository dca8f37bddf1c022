// Lookups in an image by its index: a slot's digest and chain, which slots are filled, measurements and their summaries.
// Nothing is asked of a caller: of any image and any index the answer is the definition's, and what is not there is empty or 0.
#![tactic(auto)]

ghost use Rattle.std.specs.Prelude.{◌≡◌, ◌+◌, ◌<◌, ◌≤◌, MatchOption};
ghost use Rattle.wire.specs.Bytes.{Bytes};
ghost use Rattle.image.specs.Limits.{slot_length};
ghost use Rattle.image.specs.Sizes.{digest_most};
ghost use Rattle.image.specs.Index.{size_in, place_in, digest_at, chain_length_at, chain_part_at, mask_at};
ghost use Rattle.image.specs.Index.{body_place, nth_at, measurement_at, summary_at};

use image::limits::{HEAD_LENGTH, LABEL_LENGTH, SLOT_LENGTH};
use image::{Index, MeasurementIndex, SlotNumber};

// The mask of the filled slots: bit k is set where slot k is filled.
#[tactic(auto, using(crate::proofs::Mask::steps))]
pub fn slot_mask(ix: Index) -> u8
    ensures { result ≡ mask_at ix }
{
    let mut mask = 0;
    for (k, place) in ix.places.iter().enumerate() {
        if *place != 0 {
            mask |= 1 << k;
        }
    }
    mask
}

// An image with the index that was read of it.
#[derive(Clone, Copy)]
pub struct Image<'a> {
    pub bytes: &'a [u8],
    pub index: Index,
    // what every slice of u8 meets
    ghost octets: { Bytes bytes.now },
}

impl<'a> Image<'a> {
    // The bytes of a digest.
    fn digest_size(&self) -> usize
        ensures { (result ≡ size_in self.now.index) × (result ≤ digest_most) }
    {
        image::digest_size(self.index.identity.hash)
    }

    // Where the body of a slot's record starts, if the slot is filled.
    #[tactic(auto, using(wire::proofs::Picks::picks), unfolding(image::specs::Index::place_in))]
    fn place(&self, slot: SlotNumber) -> Option<usize>
        ensures { MatchOption result (place_in self.now.index slot.0 ≡ 0)
            (λ at. (at ≡ place_in self.now.index slot.0) × (0 < at) × (at < 65536)) }
    {
        let at = *self.index.places.get(usize::from(u8::from(slot)))?;
        if at == 0 { None } else { Some(usize::from(at)) }
    }

    // The digest of a slot's chain, empty where the slot is not filled.
    #[tactic(auto, using(wire::proofs::Picks::picks), unfolding(image::specs::Index::digest_at))]
    pub fn digest(&self, slot: SlotNumber) -> &'a [u8]
        ensures { result.now ≡ digest_at self.now.bytes.now self.now.index slot.0 }
    {
        let Some(at) = self.place(slot) else {
            return &[];
        };
        wire::part_of(self.bytes, at + SLOT_LENGTH, self.digest_size())
    }

    // Where a slot's chain starts, if the slot is filled: behind the slot's number and the digest.
    fn chain_start(&self, slot: SlotNumber) -> Option<usize>
        ensures { MatchOption result (place_in self.now.index slot.0 ≡ 0)
            (λ start. (0 < place_in self.now.index slot.0)
            × (start ≡ place_in self.now.index slot.0 + (slot_length + size_in self.now.index))) }
    {
        let at = self.place(slot)?;
        Some(at + SLOT_LENGTH + self.digest_size())
    }

    // The length of a slot's chain, which its first two bytes say; 0 where the slot is not filled.
    #[tactic(auto, using(wire::proofs::Picks::picks), unfolding(image::specs::Index::chain_length_at))]
    pub fn chain_length(&self, slot: SlotNumber) -> usize
        ensures { result ≡ chain_length_at self.now.bytes.now self.now.index slot.0 }
    {
        let Some(start) = self.chain_start(slot) else {
            return 0;
        };
        usize::from(wire::get_u16le(self.bytes, start))
    }

    // len bytes of a slot's chain from an offset on, fewer where the chain ends sooner: an inner part of the lent image.
    #[tactic(auto, using(wire::proofs::Picks::picks), unfolding(image::specs::Index::chain_part_at, image::specs::Index::chain_length_at))]
    pub fn chain_part(&self, slot: SlotNumber, offset: usize, len: usize) -> &'a [u8]
        ensures { result.now ≡ chain_part_at self.now.bytes.now self.now.index slot.0 offset len }
    {
        let Some(start) = self.chain_start(slot) else {
            return &[];
        };
        let length = usize::from(wire::get_u16le(self.bytes, start));
        let chain = wire::part_of(self.bytes, start, length);
        wire::part_of(chain, offset, len)
    }

    // Where the body of the k-th measurement starts, and behind the last that of the summary.
    #[tactic(auto, unfolding(image::specs::Index::body_place))]
    fn body_place(&self, k: usize) -> usize
        requires { k < 256 }
        ensures { (result ≡ body_place self.now.index k) × (result < 131072) }
    {
        usize::from(self.index.first) + k * (HEAD_LENGTH + LABEL_LENGTH + self.digest_size())
    }

    // The k-th measurement as index, type and digest, empty where there is none.
    #[tactic(auto, using(wire::proofs::Picks::picks), unfolding(image::specs::Index::nth_at))]
    pub fn nth_measurement(&self, k: usize) -> &'a [u8]
        ensures { result.now ≡ nth_at self.now.bytes.now self.now.index k }
    {
        let count = usize::from(self.index.measurements);
        if k < count {
            let length = LABEL_LENGTH + self.digest_size();
            return wire::part_of(self.bytes, self.body_place(k), length);
        }
        &[]
    }

    // The measurement with an index, as index, type and digest; empty where there is none.
    #[tactic(auto, using(crate::proofs::Search::steps))]
    pub fn measurement(&self, index: MeasurementIndex) -> &'a [u8]
        ensures { result.now ≡ measurement_at self.now.bytes.now self.now.index index.0 }
    {
        let wanted = u8::from(index);
        for k in 0..usize::from(self.index.measurements) {
            let entry = self.nth_measurement(k);
            if wire::byte_at(entry, 0) == wanted {
                return entry;
            }
        }
        &[]
    }

    // The k-th summary hash, the first of the TCB and the second of all measurements; empty where there is no measurement.
    #[tactic(auto, using(wire::proofs::Picks::picks), unfolding(image::specs::Index::summary_at))]
    fn nth_summary(&self, k: usize) -> &'a [u8]
        requires { k < 2 }
        ensures { result.now ≡ summary_at self.now.bytes.now self.now.index k }
    {
        let count = usize::from(self.index.measurements);
        if count == 0 {
            return &[];
        }
        let size = self.digest_size();
        wire::part_of(self.bytes, self.body_place(count) + k * size, size)
    }

    // The summary hash of the TCB's measurements.
    pub fn tcb_summary(&self) -> &'a [u8]
        ensures { result.now ≡ summary_at self.now.bytes.now self.now.index 0 }
    {
        self.nth_summary(0)
    }

    // The summary hash of all measurements.
    pub fn full_summary(&self) -> &'a [u8]
        ensures { result.now ≡ summary_at self.now.bytes.now self.now.index 1 }
    {
        self.nth_summary(1)
    }
}
