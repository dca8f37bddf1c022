// What a file of vectors is taken apart with: its words, numbers, and bytes in hex. A file is bytes: it need be no text.
ghost use Rattle.std.specs.Prelude.{◌<◌, IfSome};

use std::str;

// No word has this number: every number of the vectors is smaller. No Option: a number that is none goes on, and makes its line disagree.
const NO_NUMBER: u32 = u32::MAX;

// The word for no bytes.
pub const NO_BYTES: &[u8] = b"-";

// A line without its line end.
pub fn without_end(line: &[u8]) -> &[u8] {
    line.strip_suffix(b"\n").unwrap_or(line)
}

// A part, counted from 0, of those that a byte stands between; empty where there are fewer.
pub fn part(bytes: &[u8], n: usize, between: u8) -> &[u8] {
    bytes.split(|&b| b == between).nth(n).unwrap_or(&[])
}

pub fn word(line: &[u8], n: usize) -> &[u8] {
    part(line, n, b' ')
}

// The line from a word on.
pub fn rest(line: &[u8], n: usize) -> &[u8] {
    let mut parts = line.splitn(n.saturating_add(1), |&b| b == b' ');
    parts.nth(n).unwrap_or(&[])
}

// The number of a word of digits, which parse would take with a sign too.
fn decimal(word: &[u8]) -> Option<u32> {
    let digits = str::from_utf8(word).ok()?;
    if digits.starts_with('+') {
        return None;
    }
    digits.parse().ok()
}

// The number that is a word of the line; a word that is none makes its line disagree.
pub fn number(line: &[u8], n: usize) -> u32 {
    decimal(word(line, n)).unwrap_or(NO_NUMBER)
}

// The length that is a word of the line.
pub fn length(line: &[u8], n: usize) -> usize {
    number(line, n) as usize
}

// The number of a word as a byte; says so where it is none.
pub fn byte(rt: &impl Print, word: &[u8]) -> u8 {
    let byte = decimal(word).and_then(|n| u8::try_from(n).ok());
    byte.unwrap_or_else(|| {
        let _ = rt.println("a word is no byte");
        0
    })
}

// The value of a digit in lower case, as the vectors have them.
fn hex_digit(c: u8) -> Option<u8>
    ensures { IfSome result (λ digit. digit < 16) }
{
    match c {
        b'0'..=b'9' => Some(c - b'0'),
        b'a'..=b'f' => Some(c - b'a' + 10),
        _ => None,
    }
}

fn hex_byte(pair: &[u8]) -> Option<u8> {
    let [high, low] = pair else {
        return None;
    };
    Some(hex_digit(*high)? * 16 + hex_digit(*low)?)
}

// The bytes of a word of hex digits, at the start of a room; says so where a pair is none, and of each byte that has no room.
pub fn decode<'a>(rt: &impl Print, word: &[u8], room: &'a mut [u8]) -> &'a [u8] {
    let digits = if word == NO_BYTES { &[] } else { word };
    let pairs = digits.chunks(2);
    let length = pairs.len();
    let mut places = room.iter_mut();
    for pair in pairs {
        let byte = hex_byte(pair).unwrap_or_else(|| {
            let _ = rt.println("a word is not in hex");
            0
        });
        match places.next() {
            Some(place) => *place = byte,
            None => {
                let _ = rt.println("no room");
            }
        }
    }
    wire::part_of(room, 0, length)
}
