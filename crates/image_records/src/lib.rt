// The tests of the provisioning image's records, each held against those before it. The reader and the writer make the same ones. Each test
// has a line of its own, in the order of the definition.
#![tactic(auto)]

ghost use Rattle.std.specs.Prelude.{◌≡◌, get_or};
ghost use Rattle.image.specs.Fault.{told, fault_told};
ghost use Rattle.image.specs.Reading.{identity_in, field_fault, identity_fault, chain_fault, measurement_fault, summary_fault};
ghost use Rattle.image.specs.Reading.{record_fault, end_fault};
ghost use Rattle.image_records.specs.Records.{seen_first, seen_after, held_of};

use image::limits::{
    CHAIN_KIND, CHAIN_LEAST, CHAIN_LIMIT, CHAINS_LIMIT, EXPONENT_LIMIT, HASH_LIMIT,
    IDENTITY_LENGTH, INDEX_LIMIT, LABEL_LENGTH, MEASUREMENT_KIND, MEASUREMENTS_LIMIT,
    SIGNATURE_LIMIT, SLOT_LENGTH, SLOT_LIMIT, SUMMARY_KIND, TYPE_LIMIT,
};
use image::{Fault, Identity, Seen};

// The fields of an identity record's body.
pub fn identity_in(body: &[u8]) -> Identity
    ensures { result ≡ identity_in body.now }
{
    Identity {
        exponent: wire::byte_at(body, 0),
        hash: wire::byte_at(body, 1),
        signature: wire::byte_at(body, 2),
    }
}

// What is seen right behind an identity.
pub fn seen_first(id: Identity) -> Seen
    ensures { result ≡ seen_first id }
{
    Seen {
        size: image::digest_size(id.hash) as u8,
        chains: 0,
        slot: 0,
        measurements: 0,
        index: 0,
        summaries: 0,
    }
}

#[tactic(auto, using(wire::proofs::Picks::picks))]
fn check_fields(id: Identity) -> Result<(), Fault>
    ensures { fault_told result ≡ field_fault id }
{
    if EXPONENT_LIMIT < id.exponent {
        return Err(Fault::WrongField);
    }
    if HASH_LIMIT < id.hash {
        return Err(Fault::WrongField);
    }
    if SIGNATURE_LIMIT < id.signature {
        return Err(Fault::WrongField);
    }
    Ok(())
}

// The identity record's first fault.
#[tactic(auto, using(wire::proofs::Picks::picks), unfolding(image::specs::Reading::identity_fault))]
pub fn check_identity(body: &[u8]) -> Result<(), Fault>
    ensures { fault_told result ≡ identity_fault body.now }
{
    if body.len() != IDENTITY_LENGTH {
        return Err(Fault::WrongLength);
    }
    check_fields(identity_in(body))
}

#[tactic(auto, using(wire::proofs::Picks::picks), unfolding(image::specs::Reading::chain_fault))]
fn check_chain(w: Seen, body: &[u8]) -> Result<(), Fault>
    ensures { fault_told result ≡ chain_fault w body.now }
{
    if 0 < w.measurements {
        return Err(Fault::WrongKind);
    }
    if CHAINS_LIMIT <= w.chains {
        return Err(Fault::TooMany);
    }
    let size = usize::from(w.size);
    if body.len() < SLOT_LENGTH + size + (CHAIN_LEAST + size) {
        return Err(Fault::WrongLength);
    }
    if SLOT_LENGTH + size + CHAIN_LIMIT < body.len() {
        return Err(Fault::WrongLength);
    }
    let slot = body[0];
    if SLOT_LIMIT < slot {
        return Err(Fault::WrongField);
    }
    // The first slot is 0, a later one is above the last. As a function of its own this takes a twentieth more of the reader's instructions.
    if w.chains == 0 {
        if 0 < slot {
            return Err(Fault::WrongField);
        }
    } else if slot <= w.slot {
        return Err(Fault::WrongField);
    }
    let own = usize::from(wire::get_u16le(body, SLOT_LENGTH + size));
    if own != body.len() - (SLOT_LENGTH + size) {
        return Err(Fault::WrongOwnLength);
    }
    Ok(())
}

#[tactic(auto, using(wire::proofs::Picks::picks), unfolding(image::specs::Reading::measurement_fault))]
fn check_measurement(w: Seen, body: &[u8]) -> Result<(), Fault>
    ensures { fault_told result ≡ measurement_fault w body.now }
{
    if w.chains == 0 {
        return Err(Fault::WrongKind);
    }
    if 0 < w.summaries {
        return Err(Fault::WrongKind);
    }
    if MEASUREMENTS_LIMIT <= w.measurements {
        return Err(Fault::TooMany);
    }
    if body.len() != LABEL_LENGTH + usize::from(w.size) {
        return Err(Fault::WrongLength);
    }
    let index = body[0];
    if index <= w.index {
        return Err(Fault::WrongField);
    }
    if INDEX_LIMIT < index {
        return Err(Fault::WrongField);
    }
    if TYPE_LIMIT < body[1] {
        return Err(Fault::WrongField);
    }
    Ok(())
}

#[tactic(auto, using(wire::proofs::Picks::picks), unfolding(image::specs::Reading::summary_fault))]
fn check_summary(w: Seen, body: &[u8]) -> Result<(), Fault>
    ensures { fault_told result ≡ summary_fault w body.now }
{
    if w.measurements == 0 {
        return Err(Fault::WrongKind);
    }
    if 0 < w.summaries {
        return Err(Fault::WrongKind);
    }
    let size = usize::from(w.size);
    if body.len() != size + size {
        return Err(Fault::WrongLength);
    }
    Ok(())
}

#[tactic(auto, using(wire::proofs::Picks::picks), unfolding(image::specs::Reading::record_fault))]
fn check_record(w: Seen, kind: u8, body: &[u8]) -> Result<(), Fault>
    ensures { fault_told result ≡ record_fault w kind body.now }
{
    match kind {
        CHAIN_KIND => check_chain(w, body),
        MEASUREMENT_KIND => check_measurement(w, body),
        SUMMARY_KIND => check_summary(w, body),
        _ => Err(Fault::WrongKind),
    }
}

// Whether a record is missing at the end.
#[tactic(auto, using(wire::proofs::Picks::picks), unfolding(image::specs::Reading::end_fault))]
pub fn check_end(w: Seen) -> Result<(), Fault>
    ensures { fault_told result ≡ end_fault w }
{
    if w.chains == 0 {
        return Err(Fault::WrongKind);
    }
    if w.measurements == 0 {
        return Ok(());
    }
    if w.summaries == 0 {
        return Err(Fault::WrongKind);
    }
    Ok(())
}

// What is seen past a good record.
#[tactic(auto, using(wire::proofs::Picks::picks))]
fn seen_after(w: Seen, kind: u8, body: &[u8]) -> Seen
    requires { record_fault w kind body.now ≡ 0 }
    ensures { result ≡ seen_after w kind (get_or body.now 0 0) }
{
    let key = wire::byte_at(body, 0);
    match kind {
        CHAIN_KIND => Seen {
            chains: w.chains + 1,
            slot: key,
            ..w
        },
        MEASUREMENT_KIND => Seen {
            measurements: w.measurements + 1,
            index: key,
            ..w
        },
        _ => Seen {
            summaries: w.summaries + 1,
            ..w
        },
    }
}

// A record behind the identity, held against those before it: what is seen past it, or its fault. Its kind is a byte, as any may stand in
// an image, and an unknown one is a fault like the others, at its turn.
#[tactic(auto, using(wire::proofs::Picks::picks), unfolding(crate::specs::Records::held_of, image::specs::Reading::unless))]
pub fn hold(w: Seen, kind: u8, body: &[u8]) -> Result<Seen, Fault>
    ensures { told result ≡ held_of w kind body.now }
{
    check_record(w, kind, body)?;
    Ok(seen_after(w, kind, body))
}
