// What an answer is written from, beside the fields of its message.
ghost use Rattle.std.specs.Prelude.{◌≡◌, length};
ghost use Rattle.image.specs.Read.{Known};
ghost use Rattle.rules.specs.Limits.{nonce_length};

use image_lookup::Image;
use rules::Negotiated;

#[derive(Drop)]
pub(crate) struct Source<'a> {
    pub image: Image<'a>,
    pub nonce: &'a [u8],
    // as it is once the answer is sent
    pub negotiated: Negotiated,
    // the reader accepted the image, and gave this index
    ghost known: { ∥ Known image.bytes.now image.index ∥₁ },
    ghost drawn: { length nonce.now ≡ nonce_length },
}
