//! By which reason a claim can be shown.
ghost use Rattle.std.specs.Prelude.{◌≡◌};
ghost use Rattle.game_rules.specs.Position.{same_side};
ghost use Rattle.proof_text.specs.Lemma.{claim_side, claims_win, agrees};

use board_bits::Side;
use proof_text::Claim;

/// Whether one move can show a claim: that the side to move wins, or that the other side doesn't. Any other claim needs
/// all moves.
pub(crate) fn goes_by_one(claim: Claim, to_move: Side) -> bool
    ensures { result ≡ agrees (claims_win claim) (same_side (claim_side claim) to_move) }
{
    match to_move {
        Side::White => matches!(claim, Claim::WhiteWins | Claim::BlackFails),
        Side::Black => matches!(claim, Claim::BlackWins | Claim::WhiteFails),
    }
}
