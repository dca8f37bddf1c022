// The writer of the provisioning image: from a first byte and records, each a kind and a body, the image, or the first fault.
// The records are tested by the reader's own tests.
#![tactic(auto)]

mod drafting;

ghost use Rattle.std.specs.Prelude.{◌≡◌, ◌+◌, ◌≤◌, length};
ghost use Rattle.std.specs.Iterator.{YieldsFirstBy, item_count};
ghost use Rattle.wire.specs.Bytes.{splice};
ghost use Rattle.image.specs.Contents.{record_bytes};
ghost use Rattle.image.specs.Fault.{told};
ghost use Rattle.image_writer.specs.Writing.{record_in, records_in, records_lent, joined, writing, Wrote};
ghost use Rattle.image_writer.specs.Remaining.{left};
ghost use Rattle.image_writer.specs.WriteError.{number_of, write_told};
ghost use Rattle.image_writer.specs.declared.WriteError.TheVariants.{Image};
ghost use Rattle.image_writer.specs.Draft.{opened_by, added_all};

pub use drafting::Draft;
use image::Fault;
use image::limits::HEAD_LENGTH;

const SHORT_OUTPUT: u8 = 18;

// Why no image is written.
#[derive(Clone, Copy, PartialEq, Eq)]
pub enum WriteError {
    // what the reader would say of it
    Image(Fault),
    // the lent output is shorter than the image
    ShortOutput,
}

impl WriteError {
    // The number that the host sees.
    pub fn number(self) -> u8
        ensures { result ≡ number_of self }
    {
        match self {
            WriteError::Image(fault) => fault.number(),
            WriteError::ShortOutput => SHORT_OUTPUT,
        }
    }
}

impl From<Fault> for WriteError {
    ghost from_gives = { λ f e. e ≡ Image f };

    fn from(f: Fault) -> WriteError {
        WriteError::Image(f)
    }
}

// A record as it is lent: its kind is any byte, and an unknown one is refused at its turn.
#[derive(Clone, Copy)]
pub struct Record<'a> {
    pub kind: u8,
    pub body: &'a [u8],
}

impl Record<'_> {
    // The record's head and body from a place of out on; what would lie past its end is lost.
    #[tactic(auto, using(crate::proofs::Records::put_by_parts))]
    pub fn put(&self, out: &mut [u8], at: usize)
        ensures { out.new ≡ splice out.old at (record_bytes self.now.kind self.now.body.now) }
    {
        if out.len() <= at {
            return;
        }
        let room = out.len() - at;
        let [.., high, low] = self.body.len().to_be_bytes();
        wire::copy_into(out, at, &[high, low, self.kind]);
        if room <= HEAD_LENGTH {
            return;
        }
        wire::copy_into(out, at + HEAD_LENGTH, self.body);
    }
}

// The records of a call that are left, one after the other: those that three slices stand for, or those of one slice.
#[derive(Clone, Copy, Drop)]
enum Remaining<'a> {
    // a record for each kind, its length and its body at the front of what is left
    Apart(&'a [u8], &'a [usize], &'a [u8]),
    Whole(&'a [Record<'a>]),
}

impl<'a> Iterator for Remaining<'a> {
    type Item = Record<'a>;

    ghost next_gives = { YieldsFirstBy record_in left };

    ghost remaining = { item_count left };

    // A body is as many of the bytes that are left as its length says, 0 where there is none, fewer where the bytes end sooner.
    fn next(&mut self) -> Option<Record<'a>> {
        match *self {
            Remaining::Apart(kinds, lengths, bodies) => {
                let (kind, kinds) = kinds.split_first()?;
                let (length, lengths) = match lengths {
                    [length, lengths @ ..] => (*length, lengths),
                    [] => (0, lengths),
                };
                let (body, bodies) = bodies.split_at(length.min(bodies.len()));
                *self = Remaining::Apart(kinds, lengths, bodies);
                Some(Record { kind: *kind, body })
            }
            Remaining::Whole(records) => {
                let (record, records) = records.split_first()?;
                *self = Remaining::Whole(records);
                Some(*record)
            }
        }
    }
}

// What the first byte and all records come to, each looked at once.
#[tactic(auto, using(crate::proofs::Drafts::fault_first))]
fn draft_of(first: u8, records: Remaining<'_>) -> Result<Draft, Fault>
    ensures { told result ≡ added_all (opened_by first) (left records.entry) }
{
    let mut draft = Draft::open(first)?;
    for record in records {
        draft = draft.add(&record)?;
    }
    Ok(draft)
}

// All records, behind the first byte.
#[tactic(auto, using(crate::proofs::Rest::putting_done))]
fn put_all(out: &mut [u8], records: Remaining<'_>)
    requires { 1 + length (joined (left records)) ≤ length out.old }
    ensures { out.new ≡ splice out.old 1 (joined (left records.entry)) }
{
    let mut end = 1;
    for record in records {
        record.put(out, end);
        end += HEAD_LENGTH + record.body.len();
    }
}

// The image of a first byte and records, at the start of out, and its length; or the first fault, and out stays as it was.
fn write(out: &mut [u8], first: u8, records: Remaining<'_>) -> Result<usize, WriteError>
    ensures { Wrote out.old out.new (write_told result) (writing first (left records.entry)) }
{
    let length = draft_of(first, records)?.close(out.len())?;
    wire::copy_into(out, 0, &[first]);
    put_all(out, records);
    Ok(length)
}

// The image of a first byte and the records that three slices stand for, whatever their lengths: one for each kind.
pub fn write_image(
    out: &mut [u8],
    first: u8,
    kinds: &[u8],
    lengths: &[usize],
    bodies: &[u8],
) -> Result<usize, WriteError>
    ensures { Wrote out.old out.new (write_told result)
        (writing first (records_in kinds.now lengths.now bodies.now)) }
{
    write(out, first, Remaining::Apart(kinds, lengths, bodies))
}

// The same, where each record is lent by itself.
pub fn write_records(out: &mut [u8], first: u8, records: &[Record<'_>]) -> Result<usize, WriteError>
    ensures { Wrote out.old out.new (write_told result) (writing first (records_lent records.now)) }
{
    write(out, first, Remaining::Whole(records))
}
