// Program: a line has a text of the bench and what the program `make_image` is to write of it, both in hex. The text is taken in parts,
// longer from line to line.
use crate::IMAGE;
use crate::text::{Hex, Room, Text};
use crate::words::{decode, word};
use image::limits::IMAGE_LIMIT;
use image_writer::WriteError;

// No part is so long; every so many lines a text is taken at once.
const PART: usize = 97;

// Room for a number in decimal.
const DIGITS: usize = 3;

// Takes a text in parts of a length, the last of them shorter; a length of 0: at once.
fn make(text: &[u8], part: usize, image: &mut [u8; IMAGE_LIMIT]) -> Result<usize, WriteError> {
    let size = if part == 0 { text.len() } else { part };
    let mut room = image_lines::line_room();
    let mut taken = image_lines::Text::start();
    for part in text.chunks(size.max(1)) {
        taken = taken.take(&mut room, image, part);
    }
    taken.end(&room, image)
}

// What is written of a line's text, as the vectors have it: the image, or the number in decimal.
pub fn made<'a>(rt: &impl Print, text: &'a mut Text, line: &[u8], number: usize) -> &'a [u8] {
    let mut room = [0u8; IMAGE];
    let bench = decode(rt, word(line, 0), &mut room);
    let mut image = [0u8; IMAGE_LIMIT];
    match make(bench, number % PART, &mut image) {
        Ok(n) => text.put(0, Hex(wire::part_of(&image, 0, n))),
        Err(error) => {
            let mut digits = Room::<DIGITS>::new();
            let digits = digits.put(0, error.number());
            text.put(0, Hex(digits))
        }
    }
}
