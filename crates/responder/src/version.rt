// VERSION.
ghost use Rattle.std.specs.Prelude.{◌≡◌};
ghost use Rattle.wire.specs.Bytes.{splice};
ghost use Rattle.rules.specs.Version.{version_bytes};

use rules::Negotiated;
use rules::limits::{VERSION_CODE, VERSION_COUNT, VERSION_ENTRY_11, VERSION_ENTRY_12};

// Where the entries stand, of two bytes each.
const ENTRIES_AT: usize = 6;

const ENTRY_LENGTH: usize = 2;

#[tactic(auto, using(crate::proofs::RunLaws::runs), unfolding(rules::specs::Version::version_bytes))]
pub(crate) fn write_version(answer: &mut [u8], n: Negotiated)
    ensures { answer.new ≡ splice answer.old 0 (version_bytes n) }
{
    let head = [state::version_of(n), VERSION_CODE, 0, 0, 0, VERSION_COUNT];
    wire::copy_into(answer, 0, &head);
    wire::put_le(answer, ENTRIES_AT, ENTRY_LENGTH, VERSION_ENTRY_11);
    wire::put_le(
        answer,
        ENTRIES_AT + ENTRY_LENGTH,
        ENTRY_LENGTH,
        VERSION_ENTRY_12,
    );
}
