// Runs flows on the responder and prints each request with its answer: those headed "paper" are the rules' own, the numbered
// ones a list of CHALLENGE's test cases, with each version that VERSION has and the flow is for: 6.1 to 6.3 are for
// 1.0 and 1.1, 6.4 to 6.6 for any, the others for 1.2. Of the reading by 34 bytes it prints what the reads come to.
#![tactic(auto)]

mod bench;
mod connection;
mod flow;
mod images;
mod reading;
mod request;
mod room;
mod show;
mod signed;

use bench::Bench;
use images::IMAGE;
use request::{Peer, Request, VERSION_11, VERSION_12};

// CHALLENGE before NEGOTIATE_ALGORITHMS gets UnexpectedRequest, and with another version byte VersionMismatch.
fn paper_challenge(rt: &impl Print, image: &[u8]) {
    let _ = println!(rt; "paper: CHALLENGE in phase 2");
    let bench = Bench { rt, image };
    let mut connection = bench.connect();
    connection.run(
        &[Request::Version, Request::Capabilities],
        Peer::new(VERSION_12),
    );
    for version in [VERSION_12, VERSION_11] {
        let bytes = Peer::new(version).challenge(&[0; 32]);
        connection.ask(Request::Challenge, &bytes);
    }
}

// The smallest image has 80 bytes and is accepted; without its last byte the host sees number 3.
fn paper_smallest(rt: &impl Print, room: &mut [u8; IMAGE]) {
    let image = images::smallest(room);
    Bench { rt, image }.version();
    let image = wire::part_of(image, 0, image.len().saturating_sub(1));
    Bench { rt, image }.version()
}

fn all_flows(rt: &impl Print, image: &[u8]) {
    Bench { rt, image }.all_flows();
}

// One room for all images: each is put together when its turn comes.
fn main(rt: HostRuntime) {
    let mut room = [0u8; IMAGE];
    paper_challenge(&rt, images::bench(&mut room));
    paper_smallest(&rt, &mut room);
    reading::paper_longest(&rt, &mut room);
    all_flows(&rt, images::bench(&mut room));
    all_flows(&rt, images::full(&mut room));
}
