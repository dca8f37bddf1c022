// An image in the making: tested record by record, before a byte of it is written.
ghost use Rattle.std.specs.Prelude.{◌≡◌, ◌≤◌, length};
ghost use Rattle.image.specs.Limits.{image_limit};
ghost use Rattle.image.specs.Fault.{told};
ghost use Rattle.image_writer.specs.Writing.{record_in};
ghost use Rattle.image_writer.specs.WriteError.{write_told};
ghost use Rattle.image_writer.specs.Draft.{opened_by, grown_to, first_held, added, closed};

use crate::{Record, WriteError};
use image::limits::{HEAD_LENGTH, IDENTITY_KIND, IMAGE_LIMIT, IMAGE_VERSION};
use image::{Fault, Seen};

// What the first byte and the records so far come to: what the tests of the next record need, nothing before the identity, and the length
// of the image so far.
#[derive(Clone, Copy)]
pub struct Draft {
    pub seen: Option<Seen>,
    pub length: usize,
}

impl Draft {
    // The first byte alone.
    #[tactic(auto, using(wire::proofs::Picks::picks), unfolding(crate::specs::Draft::opened_by))]
    pub fn open(first: u8) -> Result<Draft, Fault>
        ensures { told result ≡ opened_by first }
    {
        if first != IMAGE_VERSION {
            return Err(Fault::WrongVersion);
        }
        Ok(Draft {
            seen: None,
            length: 1,
        })
    }

    // The draft with a good record more. Past the limit its length is not counted on.
    #[tactic(auto, using(wire::proofs::Picks::picks), unfolding(crate::specs::Draft::longer))]
    fn grown(self, body: &[u8], seen: Seen) -> Draft
        ensures { result ≡ grown_to self body.now seen }
    {
        let length = if IMAGE_LIMIT < self.length {
            self.length
        } else {
            self.length + (HEAD_LENGTH + body.len())
        };
        Draft {
            seen: Some(seen),
            length,
        }
    }

    // The draft with a record more.
    pub fn add(self, next: &Record<'_>) -> Result<Draft, Fault>
        ensures { told result ≡ added self (record_in next.now) }
    {
        let seen = match self.seen {
            Some(seen) => image_records::hold(seen, next.kind, next.body)?,
            None => hold_first(next.kind, next.body)?,
        };
        Ok(self.grown(next.body, seen))
    }

    // The image's length when no record follows, and the output has that room.
    #[tactic(auto, using(wire::proofs::Picks::picks), unfolding(crate::specs::Draft::closed, image::specs::Reading::unless))]
    pub fn close(self, room: usize) -> Result<usize, WriteError>
        ensures { write_told result ≡ closed self room }
    {
        let Some(seen) = self.seen else {
            return Err(WriteError::Image(Fault::WrongKind));
        };
        image_records::check_end(seen)?;
        if IMAGE_LIMIT < self.length {
            return Err(WriteError::Image(Fault::WrongSize));
        }
        if room < self.length {
            return Err(WriteError::ShortOutput);
        }
        Ok(self.length)
    }
}

// The first record is the identity: what is seen past it.
#[tactic(auto, using(wire::proofs::Picks::picks), unfolding(crate::specs::Draft::first_held, image::specs::Reading::unless))]
fn hold_first(kind: u8, body: &[u8]) -> Result<Seen, Fault>
    ensures { told result ≡ first_held kind body.now }
{
    if kind != IDENTITY_KIND {
        return Err(Fault::WrongKind);
    }
    image_records::check_identity(body)?;
    Ok(image_records::seen_first(image_records::identity_in(body)))
}
