// The reader of the provisioning image: one walk over its records, each held against those before it.
#![tactic(auto)]

ghost use Rattle.std.specs.Prelude.{◌≡◌, ◌+◌, ◌<◌, ◌≤◌, length};
ghost use Rattle.image.specs.Limits.{image_limit, head_length, slot_limit, chain_kind, identity_end};
ghost use Rattle.image.specs.Contents.{identity_body};
ghost use Rattle.image.specs.Reading.{reading, read_on, identity_fault, identified};
ghost use Rattle.image.specs.Fault.{told};
ghost use Rattle.image.specs.Index.{answer_of};
ghost use Rattle.image_reader.specs.Steps.{frames_at, frame_at, body_in, first_read, record_of, bodies_after, first_after};
ghost use Rattle.image_reader.specs.Runs.{Head, Measuring, Run};

use image::limits::{
    CHAIN_KIND, HEAD_LENGTH, IDENTITY_END, IDENTITY_KIND, IMAGE_LIMIT, IMAGE_VERSION, INDEX_LIMIT,
    LABEL_LENGTH, MEASUREMENT_KIND, MEASUREMENTS_LIMIT, SLOT_COUNT, TYPE_LIMIT,
};
use image::{Fault, Identity, Index, Seen};

// A whole record: its kind, and where its body starts and ends.
#[derive(Clone, Copy)]
struct Frame {
    kind: u8,
    start: usize,
    end: usize,
}

impl Frame {
    fn body(self, s: &[u8]) -> &[u8]
        requires { (self.start ≤ self.end) × (self.end ≤ length s.now) }
        ensures { result.now ≡ body_in s.now self }
    {
        &s[self.start..self.end]
    }
}

// The record at a place of the image, None at its end.
#[tactic(auto, using(wire::proofs::Picks::picks), unfolding(crate::specs::Steps::frame_at))]
fn frame_at(s: &[u8], at: usize) -> Result<Option<Frame>, Fault>
    ensures { told result ≡ frame_at s.now at }
{
    if s.len() <= at {
        return Ok(None);
    }
    let left = s.len() - at;
    if left < HEAD_LENGTH {
        return Err(Fault::BrokenRecord);
    }
    let len = usize::from(wire::get_u16be(s, at));
    if left - HEAD_LENGTH < len {
        return Err(Fault::BrokenRecord);
    }
    let start = at + HEAD_LENGTH;
    Ok(Some(Frame {
        kind: s[at + 2],
        start,
        end: start + len,
    }))
}

// A good record, and what is seen past it.
#[derive(Clone, Copy)]
struct Record {
    frame: Frame,
    next: Seen,
}

// The record at a place, held against those before it.
#[tactic(auto, using(crate::proofs::Frames::records), unfolding(crate::specs::Steps::record_of, crate::specs::Steps::held_record, image::specs::Reading::unless))]
fn read_record(s: &[u8], at: usize, w: Seen) -> Result<Option<Record>, Fault>
    ensures { told result ≡ record_of s.now w (frame_at s.now at) }
{
    let Some(frame) = frame_at(s, at)? else {
        image_records::check_end(w)?;
        return Ok(None);
    };
    let next = image_records::hold(w, frame.kind, frame.body(s))?;
    Ok(Some(Record { frame, next }))
}

// Keeps where a chain's body starts. In place: an array that is made anew for each record is copied for each, and the copy waits for
// the entry written before it. Handed the frame whole, this and the next take a tenth more of the reader's instructions.
#[tactic(auto, using(wire::proofs::Picks::picks))]
fn place_chain(bodies: &mut [u16; SLOT_COUNT], kind: u8, slot: u8, start: usize)
    requires { (start ≤ image_limit) × (kind ≡ chain_kind → slot ≤ slot_limit) }
    ensures { bodies.new ≡ bodies_after bodies.old kind slot start }
{
    if kind == CHAIN_KIND {
        bodies[usize::from(slot)] = start as u16;
    }
}

// Where the first measurement's body starts: a later one does not move it.
#[tactic(auto, using(wire::proofs::Picks::picks))]
fn first_after(first: u16, w: Seen, kind: u8, start: usize) -> u16
    requires { start ≤ image_limit }
    ensures { result ≡ first_after first w kind start }
{
    if kind == MEASUREMENT_KIND && w.measurements == 0 {
        start as u16
    } else {
        first
    }
}

// In a head as one number, the body's first byte counts by one.
const KIND_UNIT: usize = 256;

const LENGTH_UNIT: usize = 65536;

// Length, kind and the body's first byte of the record at a place, as one number.
fn head_at(s: &[u8], at: usize) -> usize
    requires { at + head_length < length s.now }
    ensures { Head s.now at result }
{
    u32::from_be_bytes([s[at], s[at + 1], s[at + 2], s[at + HEAD_LENGTH]]) as usize
}

// Good measurement records that stand one behind the other, from a place behind a good one on. They are all of one length, and their
// heads, index included, rise from one to the next. Where the run ends, the plain step says what stands there. The place, the count and the
// last head are all wanted behind the loop.
fn run_from(s: &[u8], from: usize, w: Seen) -> (usize, Seen)
    requires { (from ≤ length s.now) × ((length s.now ≤ image_limit) × Measuring w) }
    ensures { Run s.now from w result.0 result.1 }
{
    let size = usize::from(w.size);
    let stride = HEAD_LENGTH + (LABEL_LENGTH + size);
    // The head of such a record, its index left off.
    let base = (LABEL_LENGTH + size) * LENGTH_UNIT + usize::from(MEASUREMENT_KIND) * KIND_UNIT;
    let room = usize::from(MEASUREMENTS_LIMIT - w.measurements) * stride;
    let end = s.len().min(from + room);
    let mut at = from;
    let mut n = w.measurements;
    let mut last = base + usize::from(w.index);
    while at + stride <= end {
        let head = head_at(s, at);
        if head <= last || base + usize::from(INDEX_LIMIT) < head {
            break;
        }
        if TYPE_LIMIT < s[at + HEAD_LENGTH + 1] {
            break;
        }
        last = head;
        n += 1;
        at += stride;
    }
    let seen = Seen {
        measurements: n,
        index: (last - base) as u8,
        ..w
    };
    (at, seen)
}

// The records behind the identity, one after the other; measurements behind the first by runs. The first fault is the loop's value.
#[tactic(auto, using(crate::proofs::Turns::turns))]
fn walk(s: &[u8], identity: Identity) -> Result<Index, Fault>
    requires { (length s.now ≤ image_limit) × (identity_fault (identity_body identity) ≡ 0) }
    ensures { told result ≡ answer_of (read_on (identified identity) (frames_at s.now identity_end)) }
{
    let mut at: usize = IDENTITY_END;
    let mut w = image_records::seen_first(identity);
    let mut bodies = [0; SLOT_COUNT];
    let mut first: u16 = 0;
    loop {
        // the project has this answer taken apart by `let .. else`
        let read = read_record(s, at, w);
        let Ok(found) = read else {
            break Err(read.unwrap_err());
        };
        let Some(Record { frame, next }) = found else {
            break Ok(Index {
                identity,
                chains: w.chains,
                measurements: w.measurements,
                places: bodies,
                first,
            });
        };
        place_chain(&mut bodies, frame.kind, next.slot, frame.start);
        first = first_after(first, w, frame.kind, frame.start);
        w = next;
        at = frame.end;
        if frame.kind == MEASUREMENT_KIND {
            (at, w) = run_from(s, at, w);
        }
    }
}

// The identity, and the records behind it.
#[tactic(auto, using(crate::proofs::First::firsts), unfolding(crate::specs::Steps::first_read, image::specs::Reading::unless, image::specs::Index::answer_of))]
fn read_records(s: &[u8]) -> Result<Index, Fault>
    requires { length s.now ≤ image_limit }
    ensures { told result ≡ answer_of (first_read s.now (frame_at s.now 1)) }
{
    let Some(frame) = frame_at(s, 1)? else {
        return Err(Fault::WrongKind);
    };
    if frame.kind != IDENTITY_KIND {
        return Err(Fault::WrongKind);
    }
    let body = frame.body(s);
    image_records::check_identity(body)?;
    walk(s, image_records::identity_in(body))
}

// What the image holds, as an index into it, or its first fault.
#[tactic(auto, using(crate::proofs::First::readings), unfolding(image::specs::Reading::reading, image::specs::Index::answer_of))]
pub fn read_image(s: &[u8]) -> Result<Index, Fault>
    ensures { told result ≡ answer_of (reading s.now) }
{
    if s.is_empty() || IMAGE_LIMIT < s.len() {
        return Err(Fault::WrongSize);
    }
    if s[0] != IMAGE_VERSION {
        return Err(Fault::WrongVersion);
    }
    read_records(s)
}
