// The bench's text of an image, lines of hex, taken in parts of any length: it is decoded, tested and put together record by record, in
// the room of one line and one image.
#![tactic(auto)]

ghost use Rattle.std.specs.Prelude.{◌≡◌, length};
ghost use Rattle.image.specs.Fault.{told};
ghost use Rattle.image_writer.specs.Writing.{record_in as lent_record};
ghost use Rattle.image_writer.specs.WriteError.{write_told};
ghost use Rattle.image_lines.specs.Lines.{digit_of, first_in, record_in};
ghost use Rattle.image_lines.specs.Taking.{line_room, high_in, line_after, room_after, line_bytes, begun, drafted, draft_of, draft_after};
ghost use Rattle.image_lines.specs.Taking.{image_after, taking_of, started, taken, taken_all, ended, answered};

use image::Fault;
use image::limits::CHAIN_LIMIT;
use image_writer::{Draft, Record, WriteError};

const LINE_END: u8 = b'\n';

// No version and no kind: the numbers of a line without bytes.
const NO_VERSION: u8 = 0;

const NO_KIND: u8 = 0;

// The bytes of the longest digest.
const DIGEST_MOST: usize = 64;

// Room for the kind, the longest body that a record may have, and one byte more.
const LINE_ROOM: usize = 1 + (1 + DIGEST_MOST + CHAIN_LIMIT) + 1;

// What has come of a line: whether a character is no hex digit, the first digit of a byte whose second is to come, and how many bytes are
// kept. `bad` is a flag beside the rest, which goes on: what the room holds after a malformed line is promised.
#[derive(Clone, Copy)]
pub struct Line {
    pub bad: bool,
    pub first: Option<u8>,
    pub count: usize,
}

const NEW_LINE: Line = Line {
    bad: false,
    first: None,
    count: 0,
};

// What has come of a text: what the lines that have ended come to, nothing before the first has; what those before the first fault came
// to, whose length is where their records end, as far as the buffer and an image's limit go (1 before any); and the line that goes on.
#[derive(Clone, Copy)]
pub struct Text {
    pub draft: Option<Result<Draft, Fault>>,
    pub good: Draft,
    pub line: Line,
}

// The first byte alone, a wrong one too.
const NO_RECORD: Draft = Draft {
    seen: None,
    length: 1,
};

// The value of a hex digit in either case.
#[tactic(auto, using(wire::proofs::Picks::picks), unfolding(crate::specs::Lines::digit_of))]
fn digit_value(x: u8) -> Option<u8>
    ensures { result ≡ digit_of x }
{
    match x {
        b'0'..=b'9' => Some(x - b'0'),
        b'A'..=b'F' => Some(x - b'A' + 10),
        b'a'..=b'f' => Some(x - b'a' + 10),
        _ => None,
    }
}

// The room for a line, empty.
pub fn line_room() -> [u8; LINE_ROOM]
    ensures { length result ≡ line_room }
{
    [0; LINE_ROOM]
}

impl Line {
    // The value of the first digit of a byte whose second is to come.
    fn high(self) -> Option<u8>
        ensures { result ≡ high_in self.first }
    {
        digit_value(self.first?)
    }

    // The line with a character more that is not its end.
    #[tactic(auto, using(crate::proofs::Digits::kept), unfolding(wire::specs::Pick::pick))]
    fn take(self, room: &mut [u8], x: u8) -> Line
        ensures { (result ≡ line_after self (length room.old) x) × (room.new ≡ room_after self room.old x) }
    {
        let Some(low) = digit_value(x) else {
            return Line { bad: true, ..self };
        };
        let Some(high) = self.high() else {
            return Line {
                first: Some(x),
                ..self
            };
        };
        let mut next = Line {
            first: None,
            ..self
        };
        if self.count < room.len() {
            room[self.count] = high * 16 + low;
            next.count += 1;
        }
        next
    }

    // The bytes of a line that has ended, none of a malformed one.
    #[tactic(auto, unfolding(wire::specs::Pick::pick))]
    fn bytes(self, room: &[u8]) -> &[u8]
        ensures { result.now ≡ line_bytes self room.now }
    {
        if self.bad || self.high().is_some() {
            return &[];
        }
        wire::part_of(room, 0, self.count)
    }

    #[tactic(auto, unfolding(wire::specs::Pick::pick))]
    fn begun(self) -> bool
        ensures { result ≡ begun self }
    {
        self.bad || self.high().is_some() || 0 < self.count
    }
}

// The first byte of an image, by its line's bytes.
fn first_in(b: &[u8]) -> u8
    ensures { result ≡ first_in b.now }
{
    match b {
        [first] => *first,
        _ => NO_VERSION,
    }
}

fn record_in(b: &[u8]) -> Record<'_>
    ensures { lent_record result ≡ record_in b.now }
{
    match b {
        [kind, body @ ..] => Record { kind: *kind, body },
        [] => Record {
            kind: NO_KIND,
            body: b,
        },
    }
}

// What the lines come to past one more, of these bytes, and the image with what it adds.
fn end_line(lines: Option<Result<Draft, Fault>>, b: &[u8], image: &mut [u8]) -> Result<Draft, Fault>
    ensures { (told result ≡ draft_after (drafted lines) b.now)
        × (image.new ≡ image_after (drafted lines) b.now image.old) }
{
    let Some(draft) = lines else {
        let first = first_in(b);
        wire::copy_into(image, 0, &[first]);
        return Draft::open(first);
    };
    let draft = draft?;
    let record = record_in(b);
    let next = draft.add(&record)?;
    record.put(image, draft.length);
    Ok(next)
}

impl Text {
    // Before the first character.
    pub fn start() -> Text
        ensures { result ≡ started }
    {
        Text {
            draft: None,
            good: NO_RECORD,
            line: NEW_LINE,
        }
    }

    // One character of the text.
    #[tactic(auto, using(wire::proofs::Picks::picks), unfolding(crate::specs::Taking::taken))]
    fn take_char(self, room: &mut [u8], image: &mut [u8], x: u8) -> Text
        ensures { taking_of result room.new image.new
            ≡ taken (taking_of self room.old image.old) x }
    {
        if x == LINE_END {
            let draft = end_line(self.draft, self.line.bytes(room), image);
            return Text {
                draft: Some(draft),
                good: draft.unwrap_or(self.good),
                line: NEW_LINE,
            };
        }
        Text {
            line: self.line.take(room, x),
            ..self
        }
    }

    // A part of the text behind those before it.
    pub fn take(self, room: &mut [u8], image: &mut [u8], part: &[u8]) -> Text
        ensures { taking_of result room.new image.new
            ≡ taken_all (taking_of self room.old image.old) part.now }
    {
        let mut next = self;
        for &x in part {
            next = next.take_char(room, image, x);
        }
        next
    }

    // What all lines come to: the last may lack its line end, and a text without a line has no first byte.
    #[tactic(auto, using(wire::proofs::Picks::picks), unfolding(crate::specs::Taking::ended))]
    fn end_last(self, room: &[u8], image: &mut [u8]) -> Result<Draft, Fault>
        ensures { (told result ≡ draft_of (ended (taking_of self room.now image.old)).draft)
            × (image.new ≡ (ended (taking_of self room.now image.old)).image) }
    {
        if self.line.begun() {
            return end_line(self.draft, self.line.bytes(room), image);
        }
        self.draft.unwrap_or(Draft::open(NO_VERSION))
    }

    // The text has ended: the image stands at the start of the buffer, or there is a first fault.
    pub fn end(self, room: &[u8], image: &mut [u8]) -> Result<usize, WriteError>
        ensures { (write_told result ≡ answered (taking_of self room.now image.old))
            × (image.new ≡ (ended (taking_of self room.now image.old)).image) }
    {
        let draft = self.end_last(room, image)?;
        draft.close(image.len())
    }
}
