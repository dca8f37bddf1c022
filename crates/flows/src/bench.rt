// The bench of an image: each flow on a connection of its own, printed.
use crate::connection::Connection;
use crate::flow::{FLOWS_11, FLOWS_12, Flow, NEGOTIATION, SETUP};
use crate::request::{Peer, Request, VERSION_11, VERSION_12};
use crate::show::Sum;

const SLOTS: u8 = 8;

// The slot IDs that four bits can name, and the one of the provisioned public key.
const SLOT_IDS: u8 = 16;

const LAST_SLOT_ID: u8 = 0xFF;

// The values of CHALLENGE's Param2 that are valid: no summary, the TCB's, and that of all.
const SUMMARIES: [u8; 3] = [0, 1, 0xFF];

// Two that are not.
const NO_SUMMARIES: [u8; 2] = [2, 0xFE];

// Whether a mask has the bit of a slot.
fn is_filled(mask: u8, slot: u8) -> bool {
    slot < SLOTS && (mask >> slot) % 2 == 1
}

// An image, and where what is said is printed.
#[derive(Drop)]
pub struct Bench<'a, P: Print> {
    pub rt: &'a P,
    pub image: &'a [u8],
}

impl<P: Print> Bench<'_, P> {
    // A fresh connection.
    pub fn connect(&self) -> Connection<'_, P> {
        Connection::new(self.rt, self.image)
    }

    // Names the image by its length and CRC-32, and sends GET_VERSION.
    pub fn version(&self) {
        let _ = println!(self.rt; "image of {}", Sum(self.image));
        self.connect()
            .run(&[Request::Version], Peer::new(VERSION_12))
    }

    // 6.4: CHALLENGE with a version above or below the negotiated one gets VersionMismatch.
    fn other_version(&self, peer: Peer) {
        let _ = println!(self.rt; "6.4");
        let mut connection = self.connect();
        connection.run(&SETUP, peer);
        connection.challenge(Peer::new(peer.version.wrapping_add(1)));
        connection.challenge(Peer::new(peer.version.wrapping_sub(1)))
    }

    // 6.5: before NEGOTIATE_ALGORITHMS, CHALLENGE, which its steps send, and GET_CERTIFICATE, which its description names, get
    // UnexpectedRequest.
    fn too_early(&self, peer: Peer) {
        let _ = println!(self.rt; "6.5");
        let requests = [
            Request::Version,
            Request::Capabilities,
            Request::Challenge,
            Request::Certificate,
        ];
        self.connect().run(&requests, peer)
    }

    // 6.6: CHALLENGE for a slot that is not filled, for 8 to 15 and for 255, or with a Param2 that is none of 0, 1 and 0xFF, gets
    // InvalidRequest.
    fn invalid_fields(&self, peer: Peer) {
        let _ = println!(self.rt; "6.6");
        let mut connection = self.connect();
        connection.run(&NEGOTIATION, peer);
        let mask = connection.slot_mask();
        for slot in (0..SLOT_IDS).filter(|&slot| !is_filled(mask, slot)) {
            connection.challenge(Peer { slot, ..peer });
        }
        connection.challenge(Peer {
            slot: LAST_SLOT_ID,
            ..peer
        });
        for summary in NO_SUMMARIES {
            connection.challenge(Peer { summary, ..peer });
        }
    }

    // A flow on a slot: its setup, then its steps with each valid Param2. Each CHALLENGE_AUTH is finished before the next request.
    fn flow(&self, flow: &Flow, peer: Peer) {
        let name = flow.name;
        let slot = peer.slot;
        let _ = println!(self.rt; "{name} slot {slot}");
        let mut connection = self.connect();
        connection.run(flow.setup, peer);
        for summary in SUMMARIES {
            connection.run(flow.steps, Peer { summary, ..peer });
        }
    }

    // The flows with a valid CHALLENGE that are for the version that the peer speaks.
    fn valid_flows(&self, peer: Peer) {
        let flows: &[Flow] = if peer.version == VERSION_11 {
            &FLOWS_11
        } else {
            &FLOWS_12
        };
        for flow in flows {
            self.flow(flow, peer);
        }
    }

    // The mask of the slots that DIGESTS names.
    fn valid_slots(&self, peer: Peer) -> u8 {
        let _ = println!(self.rt; "slots");
        let mut connection = self.connect();
        connection.run(&NEGOTIATION, peer);
        connection.slot_mask()
    }

    // The numbered flows that are for a version.
    fn version_flows(&self, version: u8) {
        let peer = Peer::new(version);
        self.other_version(peer);
        self.too_early(peer);
        self.invalid_fields(peer);
        let mask = self.valid_slots(peer);
        for slot in (0..SLOTS).filter(|&slot| is_filled(mask, slot)) {
            self.valid_flows(Peer { slot, ..peer });
        }
    }

    // All numbered flows.
    pub fn all_flows(&self) {
        self.version();
        let _ = println!(self.rt; "SPDM 1.1");
        self.version_flows(VERSION_11);
        let _ = println!(self.rt; "SPDM 1.2");
        self.version_flows(VERSION_12)
    }
}
