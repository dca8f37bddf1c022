// GET_CAPABILITIES.
ghost use Rattle.std.specs.Prelude.{◌≡◌};
ghost use Rattle.rules.specs.Decision.{decided};
ghost use Rattle.rules.specs.Capabilities.{capabilities_layout, peer_asked, sizes_fit, capabilities_decision};

use super::steps::{complete, invalid_request};
use rules::limits::{
    CAPABILITIES_LAYOUT_11, CAPABILITIES_LAYOUT_12, CAPABILITIES_PHASE, PEER_11, PEER_LEAST,
    VERSION_11,
};
use rules::{Accepted, Message, Negotiated, Part, Refusal};

// How long the request and its answer are, by the edition that it chooses.
#[tactic(auto, using(wire::proofs::Picks::picks))]
fn capabilities_layout(version: u8) -> usize
    ensures { result ≡ capabilities_layout version }
{
    if version == VERSION_11 {
        CAPABILITIES_LAYOUT_11
    } else {
        CAPABILITIES_LAYOUT_12
    }
}

// The peer's size: under 1.1 none is told.
#[tactic(auto, using(wire::proofs::Picks::picks))]
fn peer_asked(r: &[u8]) -> u32
    ensures { result ≡ peer_asked r.now }
{
    if wire::byte_at(r, 0) == VERSION_11 {
        PEER_11
    } else {
        wire::get_u32le(r, 12)
    }
}

#[tactic(auto, using(wire::proofs::Picks::picks), unfolding(rules::specs::Capabilities::sizes_fit))]
fn sizes_fit(r: &[u8]) -> bool
    ensures { result ≡ sizes_fit r.now }
{
    if wire::byte_at(r, 0) == VERSION_11 {
        return true;
    }
    let peer = wire::get_u32le(r, 12);
    PEER_LEAST <= peer && peer <= wire::get_u32le(r, 16)
}

#[tactic(auto, using(wire::proofs::Picks::picks), unfolding(rules::specs::Capabilities::capabilities_decision))]
pub(crate) fn decide_capabilities(r: &[u8]) -> Result<Accepted, Refusal>
    ensures { decided result ≡ capabilities_decision r.now }
{
    let version = wire::byte_at(r, 0);
    let layout = capabilities_layout(version);
    if r.len() < layout || !sizes_fit(r) {
        return Err(invalid_request());
    }
    Ok(Accepted {
        message: Message::Capabilities,
        negotiated: Negotiated {
            phase: CAPABILITIES_PHASE,
            edition: u32::from(version),
            peer: peer_asked(r),
            ..state::fresh().negotiated
        },
        exchange: complete(Part::A, layout, layout),
    })
}
