// Makes a provisioning image of lines of hex on standard input: the first byte, then a record's kind and body in each. Writes the image, or
// the number of the first fault in decimal.
#![tactic(auto)]

use image::limits::IMAGE_LIMIT;
use image_lines::Text;
use image_writer::WriteError;
use std::io;
use std::io::Read;

// How many bytes are asked for at a time.
const PART: usize = 4096;

// Takes standard input to its end. A read that fails is not taken for the end: what is left may be an image without its last records.
fn take_input(stdin: &mut impl Read, room: &mut [u8], image: &mut [u8]) -> io::Result<Text> {
    let mut part = [0u8; PART];
    let mut text = Text::start();
    // bounded, since input of unknown length may have no end
    for _ in 0..u64::MAX {
        let n = stdin.read(&mut part)?;
        if n == 0 {
            break;
        }
        text = text.take(room, image, &part[..n]);
    }
    Ok(text)
}

fn print_answer(
    rt: &impl Print,
    answer: Result<usize, WriteError>,
    image: &[u8],
) -> io::Result<()> {
    match answer {
        Ok(length) => rt.write_all(wire::part_of(image, 0, length)),
        Err(error) => rt.print(error.number()),
    }
}

// Makes the image, or says what stands in the way.
fn make(rt: &(impl Input + Print)) -> Result<(), &'static str> {
    let mut room = image_lines::line_room();
    let mut image = [0u8; IMAGE_LIMIT];
    let text = take_input(&mut rt.reader(), &mut room, &mut image).map_err(
        |_| "input cannot be read",
    )?;
    let answer = text.end(&room, &mut image);
    print_answer(rt, answer, &image).map_err(|_| "output cannot be written")
}

fn main(rt: HostRuntime) {
    if let Err(failure) = make(&rt) {
        let _ = eprintln!(rt; "make_image: {failure}");
    }
}
