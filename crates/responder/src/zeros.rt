// Zero bytes, which stand for a signature until finishing.
ghost use Rattle.std.specs.Prelude.{◌≡◌, ◌≤◌, replicate};
ghost use Rattle.wire.specs.Bytes.{splice};
ghost use Rattle.image.specs.Sizes.{signature_most};

const ZEROS: usize = 512;

// len zero bytes from a place on: at most a signature.
pub(crate) fn write_zeros(answer: &mut [u8], at: usize, len: usize)
    requires { len ≤ signature_most }
    ensures { answer.new ≡ splice answer.old at (replicate len 0) }
{
    if len == 0 {
        return;
    }
    let zeros = [0u8; ZEROS];
    wire::copy_into(answer, at, wire::part_of(&zeros, 0, len));
}
