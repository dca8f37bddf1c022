// A refused request: its ERROR, and what it leaves.
ghost use Rattle.image.specs.Contents.{Contents};
ghost use Rattle.std.specs.Prelude.{List, ℕ};
ghost use Rattle.rules.specs.Effects.{effect_of};
ghost use Rattle.rules.specs.Box.{Lent, Responded};
ghost use Rattle.rules.specs.Decision as decision;

use rules::limits::{ERROR_CODE, HEADER_LENGTH, SIZE_STEP};
use rules::{Outcome, Refused, State};

#[tactic(auto, using(wire::proofs::Picks::picks, crate::proofs::RunLaws::runs), unfolding(rules::specs::Effects::effect_of, rules::specs::Header::refused_bytes, wire::specs::Pick::pick))]
pub(crate) fn refuse(s: State, answer: &mut [u8], request: &[u8], refused: Refused) -> Outcome
    ensures { ((c : Contents) (t nonce : List ℕ) →
        let before : Lent = record { transcript = t; answer = answer.old } in
        let after : Lent = record { transcript = t; answer = answer.new } in
        let d : decision.Decision = decision.Refused refused.step refused.code refused.extra refused.size in
        Responded (effect_of d c s nonce request.now) s before after result) }
{
    let state = state::refused(s, refused.step, wire::byte_at(request, 1));
    let version = state::version_of(s.negotiated);
    wire::copy_into(
        answer,
        0,
        &[version, ERROR_CODE, refused.code, refused.extra],
    );
    if refused.step != SIZE_STEP {
        return Outcome {
            reply: Ok(HEADER_LENGTH),
            state,
        };
    }
    wire::put_le(answer, HEADER_LENGTH, 4, refused.size);
    Outcome {
        reply: Ok(HEADER_LENGTH + 4),
        state,
    }
}
