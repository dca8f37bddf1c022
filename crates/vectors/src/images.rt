// Images: a line has an image in hex and what the reader is to say of it.
use crate::IMAGE;
use crate::text::Text;
use crate::words::{decode, word};
use image::SlotNumber;
use image::limits::SLOT_LIMIT;
use image_lookup::Image;
use std::fmt;

// The filled slots, each with the length of its chain, with commas between them.
#[derive(Clone, Copy)]
struct Slots<'a>(Image<'a>);

impl fmt::Display for Slots<'_> {
    fn fmt<W: fmt::Write>(&self, f: &mut fmt::Formatter<W>) -> fmt::Result {
        let mut comma = "";
        for k in 0..=SLOT_LIMIT {
            if let Some(slot) = SlotNumber::new(k) {
                let length = self.0.chain_length(slot);
                if length > 0 {
                    write!(f, "{comma}{k}:{length}")?;
                    comma = ",";
                }
            }
        }
        Ok(())
    }
}

// The indices of the measurements with commas between them, a single '-' for none.
#[derive(Clone, Copy)]
struct Measurements<'a>(Image<'a>);

impl fmt::Display for Measurements<'_> {
    fn fmt<W: fmt::Write>(&self, f: &mut fmt::Formatter<W>) -> fmt::Result {
        let count = self.0.index.measurements;
        if count == 0 {
            return write!(f, "-");
        }
        let mut comma = "";
        for k in 0..usize::from(count) {
            if let [number, ..] = self.0.nth_measurement(k) {
                write!(f, "{comma}{number}")?;
                comma = ",";
            }
        }
        Ok(())
    }
}

// What an accepted image holds.
#[derive(Clone, Copy)]
struct Contents<'a>(Image<'a>);

impl fmt::Display for Contents<'_> {
    fn fmt<W: fmt::Write>(&self, f: &mut fmt::Formatter<W>) -> fmt::Result {
        let image = self.0;
        let id = image.index.identity;
        write!(f, "0 {} {} {}", id.exponent, id.hash, id.signature)?;
        write!(f, " {} {}", Slots(image), Measurements(image))
    }
}

// What the reader says of a line's image, as the vectors have it.
pub fn said<'a>(rt: &impl Print, text: &'a mut Text, line: &[u8]) -> &'a [u8] {
    let mut room = [0u8; IMAGE];
    let bytes = decode(rt, word(line, 0), &mut room);
    match image_reader::read_image(bytes) {
        Ok(index) => text.put(0, Contents(Image { bytes, index })),
        Err(fault) => text.put(0, fault.number()),
    }
}
