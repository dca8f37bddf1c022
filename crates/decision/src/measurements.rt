// GET_MEASUREMENTS.
ghost use Rattle.std.specs.Prelude.{◌≡◌, ◌≤◌, length};
ghost use Rattle.rules.specs.Limits.{header_length};
ghost use Rattle.rules.specs.Decision.{decided};
ghost use Rattle.rules.specs.Measurements.{signer_of, operation_of, operation_fits, measurements_exchange, measurements_decision};
ghost use Rattle.decision.specs.ImageFacts.{facts_in};
ghost use Rattle.decision.specs.Tests.{Tested, signer_passes};
ghost use Rattle.decision.specs.Small.{Small};

use super::sizes::measurements_size;
use super::steps::{complete, filled_slot, invalid_request, size_steps};
use image::{MeasurementIndex, SlotNumber};
use image_lookup::Image;
use rules::limits::{ALL_MEASUREMENTS, AWAITS_MEASUREMENTS, HEADER_LENGTH, SIGNED_LAYOUT};
use rules::{Accepted, Exchange, Message, Operation, Part, Refusal, State};

fn exchange_for(image: &Image, o: Operation, signer: Option<SlotNumber>) -> Exchange
    ensures exchange { result ≡ measurements_exchange (facts_in image.now) o signer }
    ensures small { Small result }
{
    let length = measurements_size(image, o);
    match signer {
        None => complete(Part::M, HEADER_LENGTH, length),
        Some(_) => Exchange {
            part: Part::M,
            layout: SIGNED_LAYOUT,
            length,
            signature: image::signature_size(image.index.identity.signature),
            whose: AWAITS_MEASUREMENTS,
        },
    }
}

// The slot that signs, where a signature is asked.
#[tactic(auto, using(wire::proofs::Picks::picks), unfolding(rules::specs::Measurements::signer_fits))]
fn signer_of(image: &Image, r: &[u8]) -> Result<Option<SlotNumber>, Refusal>
    requires { header_length ≤ length r.now }
    ensures { Tested result (signer_of r.now) (signer_passes (facts_in image.now) r.now) }
{
    if r[2] % 2 != 1 {
        return Ok(None);
    }
    if r.len() < SIGNED_LAYOUT {
        return Err(invalid_request());
    }
    Ok(Some(filled_slot(image, r[36] % 16)?))
}

// The measurement with that index, which step 7 refuses where it is out of range or there is none.
#[tactic(auto, using(crate::proofs::IndexLaws::indices))]
fn present_index(image: &Image, asked: u8) -> Result<MeasurementIndex, Refusal>
    ensures { Tested result (record { 0 = asked }) ((facts_in image.now).present asked) }
{
    match MeasurementIndex::new(asked) {
        Some(index) if !image.measurement(index).is_empty() => Ok(index),
        _ => Err(invalid_request()),
    }
}

#[tactic(auto, using(wire::proofs::Picks::picks), unfolding(rules::specs::Measurements::operation_fits))]
fn operation_of(image: &Image, x: u8) -> Result<Operation, Refusal>
    ensures { Tested result (operation_of x) (operation_fits (facts_in image.now) (operation_of x)) }
{
    match x {
        0 => Ok(Operation::Count),
        ALL_MEASUREMENTS => Ok(Operation::All),
        _ => Ok(Operation::One(present_index(image, x)?)),
    }
}

#[tactic(auto, using(wire::proofs::Picks::picks), unfolding(rules::specs::Measurements::measurements_decision, rules::specs::Measurements::measurements_by, rules::specs::Measurements::operation_step))]
pub(crate) fn decide_measurements(image: &Image, s: State, r: &[u8]) -> Result<Accepted, Refusal>
    requires { header_length ≤ length r.now }
    ensures { decided result ≡ measurements_decision (facts_in image.now) s r.now }
{
    let signer = signer_of(image, r)?;
    let operation = operation_of(image, r[3])?;
    let exchange = exchange_for(image, operation, signer);
    size_steps(s, Message::Measurements { operation, signer }, exchange)
}
