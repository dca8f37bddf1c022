// The longest chain, read by the least that a panel asks for. What the reads come to is printed, not each of them.
use crate::connection::{Connection, is_last};
use crate::flow::NEGOTIATION;
use crate::images;
use crate::images::{IMAGE, LONGEST};
use crate::request::{Peer, VERSION_12};
use crate::room::Room;
use crate::show::Sum;

// Room for the longest chain.
const CHAIN: usize = LONGEST as usize;

// Where the chain starts in its image, which ends with it: behind the first 7 bytes, a head of 3, the slot and a digest of 32.
const CHAIN_START: usize = 43;

// Each read asks for so many bytes.
const ASKED: u16 = 34;

// Reads that are tried: more than the 482 that may be needed, so that one too many is seen.
const READS_TRIED: u16 = 1000;

// Where a CERTIFICATE has its portion's length, and where the portion starts.
const LENGTH_AT: usize = 4;

const PORTION_AT: usize = 8;

// How many reads there were, and the portions that they gave, joined.
#[derive(Drop)]
struct Reading<'a> {
    reads: u16,
    chain: &'a [u8],
}

// The portion that a CERTIFICATE has; an ERROR is too short for one.
fn portion_of(answer: &[u8]) -> &[u8] {
    let length = wire::get_u16le(answer, LENGTH_AT);
    wire::part_of(answer, PORTION_AT, usize::from(length))
}

// Reads the chain until no byte remains, each time at the sum of the portions that are held.
fn read_portions<'a>(
    connection: &mut Connection<'_, impl Print>,
    peer: Peer,
    room: &'a mut [u8; CHAIN],
) -> Reading<'a> {
    let mut chain = Room::new(room);
    let mut reads = 0;
    for k in 1..=READS_TRIED {
        reads = k;
        let offset = u16::try_from(chain.length()).unwrap_or(u16::MAX);
        let answer = connection.answer_to(&peer.get_certificate(offset, ASKED));
        chain.put(portion_of(answer));
        if is_last(answer) {
            break;
        }
    }
    Reading {
        reads,
        chain: chain.into_slice(),
    }
}

// Restarts, negotiates and asks for the digests, then reads the chain: how many reads there were, the portions joined beside
// the chain as the image has it, and what B holds then. It takes 482 reads.
pub fn paper_longest(rt: &impl Print, room: &mut [u8; IMAGE]) {
    let _ = println!(rt; "paper: the longest chain by 34 bytes");
    let image = images::longest(room);
    let mut connection = Connection::new(rt, image);
    let peer = Peer::new(VERSION_12);
    connection.run(&NEGOTIATION, peer);
    let mut chain = [0u8; CHAIN];
    let Reading { reads, chain } = read_portions(&mut connection, peer, &mut chain);
    let _ = println!(rt;
        "  {reads} GET_CERTIFICATE for {ASKED} bytes each -> {}; in the image {}; B has {} bytes",
        Sum(chain),
        Sum(wire::part_of(image, CHAIN_START, image.len())),
        connection.used_b()
    );
}
