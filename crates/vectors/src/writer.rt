// Writer: a line has a first byte, the length of the lent output, records, and what the writer is to give.
use crate::text::{Hex, Text, mark};
use crate::words::{NO_BYTES, byte, decode, length, part, word};
use crate::{FILL, IMAGE};

// A line has at most so many records.
const RECORDS: usize = 64;

// The records of a line, as the writer is lent them.
#[derive(Drop)]
struct Records {
    count: usize,
    kinds: [u8; RECORDS],
    lengths: [usize; RECORDS],
    bodies: [u8; IMAGE],
}

impl Records {
    // None yet.
    fn new() -> Self {
        Records {
            count: 0,
            kinds: [0; RECORDS],
            lengths: [0; RECORDS],
            bodies: [0; IMAGE],
        }
    }

    // kind:body,kind:body,..: takes the records of a line.
    fn take(&mut self, rt: &impl Print, list: &[u8]) {
        let mut end: usize = 0;
        let list = if list == NO_BYTES { &[] } else { list };
        let given = list
            .split(|&b| b == b',')
            .take_while(|record| !record.is_empty());
        for ((record, kind), length) in given.zip(&mut self.kinds).zip(&mut self.lengths) {
            let room = &mut self.bodies[end.min(IMAGE)..];
            *length = decode(rt, part(record, 1, b':'), room).len();
            *kind = byte(rt, part(record, 0, b':'));
            end = end.saturating_add(*length);
            self.count = self.count.saturating_add(1);
        }
    }
}

// The word for an output that is changed from a place on. It is held to no second one: that would be as long again.
fn changed(out: &[u8], from: usize) -> &'static str {
    mark(out.iter().skip(from).any(|&b| b != FILL))
}

// What the writer makes of a line, as the vectors have it.
pub fn written<'a>(rt: &impl Print, text: &'a mut Text, line: &[u8]) -> &'a [u8] {
    let mut records = Records::new();
    records.take(rt, word(line, 2));
    let mut out = [FILL; IMAGE];
    let lent = length(line, 1).min(IMAGE);
    let first = byte(rt, word(line, 0));
    let kinds = wire::part_of(&records.kinds, 0, records.count);
    let written = image_writer::write_image(
        &mut out[..lent],
        first,
        kinds,
        &records.lengths,
        &records.bodies,
    );
    match written {
        Ok(n) => {
            let image = Hex(wire::part_of(&out, 0, n));
            text.put(0, format_args!("0 {image}{}", changed(&out, n)))
        }
        Err(error) => {
            let number = error.number();
            text.put(0, format_args!("{number} -{}", changed(&out, 0)))
        }
    }
}
