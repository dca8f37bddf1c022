// What is to be signed: the prefix, and the bytes to hash behind it.
use crate::text::{Room, Text, changed, crc32};
use crate::{FILL, TRANSCRIPT};
use rules::State;

// Room for a prefix, more than the longest has.
const PREFIX: usize = 128;

// Room for all that is signed.
const SIGNED: usize = PREFIX + TRANSCRIPT;

// What a second buffer for the prefix is filled with.
const OTHER_FILL: u8 = 90;

// A buffer with the prefix at its start, and how many bytes it has: so many are the same in one that held other bytes. What stands behind
// them is looked at too.
fn prefix_of(state: State) -> ([u8; PREFIX], usize) {
    let mut prefix = [FILL; PREFIX];
    signing::write_prefix(state, &mut prefix);
    let mut other = [OTHER_FILL; PREFIX];
    signing::write_prefix(state, &mut other);
    let n = prefix
        .iter()
        .zip(&other)
        .take_while(|(a, b)| a == b)
        .count();
    (prefix, n)
}

// Bytes more that are signed; says so where there is no room for them.
fn push(rt: &impl Print, signed: &mut Room<SIGNED>, bytes: &[u8]) {
    if !signed.push(bytes) {
        let _ = rt.println("no room");
    }
}

// What is to be signed, as the vectors have it: the lengths of the prefix and of what is hashed behind it, and the CRC-32 of both.
pub fn signed<'a>(
    rt: &impl Print,
    text: &'a mut Text,
    state: State,
    transcript: &[u8],
) -> &'a [u8] {
    let (prefix, n) = prefix_of(state);
    let mut room = Room::new();
    push(rt, &mut room, wire::part_of(&prefix, 0, n));
    push(rt, &mut room, signing::first_part(state, transcript));
    push(rt, &mut room, signing::second_part(state, transcript));
    let signed = room.as_slice();
    let hashed = signed.len().saturating_sub(n);
    let changed = changed(&[FILL; PREFIX], &prefix, n);
    text.put(
        0,
        format_args!("{n} {hashed} {:08x}{changed}", crc32(signed)),
    )
}
