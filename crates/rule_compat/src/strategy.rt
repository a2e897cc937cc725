//! What a plan is worth: by its answers alone Black keeps White from a line, whatever White plays.
ghost use Rattle.std.specs.Prelude.{◌≡◌, ◌≢◌, ℕ, true, List, Some, slice_get};
ghost use Rattle.game_rules.specs.Position.{Position};
ghost use Rattle.game_rules.specs.Value.{value};
ghost use Rattle.game_rules.specs.Laws.{HasLine};
ghost use Rattle.game_rules.specs.declared.Side.TheVariants as sides;
ghost use Rattle.game_rules.specs.declared.End.TheVariants as ends;
ghost use Rattle.plan_rules.specs.Plan.{IsTurn, duel, is_playable_list};
ghost use Rattle.rule_compat.specs.Planned.{members};

use crate::Plan;

/// What every plan promises, for each list of White's columns of which each is legal at its turn: each column opens a
/// turn, in which White's move neither makes a line nor ends the game, and Black has the plan's answer, a playable
/// square; White has no line at any position of the duel, those right after White's moves among them; and under perfect
/// play White doesn't win from the plan's position. It doesn't promise that a position has a plan, that one is found, or
/// that Black wins: the game may end in a draw.
pub fn a_plan_keeps_white_from_a_line(plan: &Plan)
    ensures turns { (columns : List ℕ) (i column : ℕ) → is_playable_list (members plan.now) plan.now.at columns ≡ true → slice_get columns i ≡ Some column
        → IsTurn plan.now.at (members plan.now) (duel (members plan.now) plan.now.at columns) i column }
    ensures none { (columns : List ℕ) (i : ℕ) (q : Position) → is_playable_list (members plan.now) plan.now.at columns ≡ true
        → slice_get (duel (members plan.now) plan.now.at columns) i ≡ Some q → HasLine q sides.White → ⊥ }
    ensures value { value plan.now.at ≢ ends.White }
{
    // its contract says that the list is a plan
    let _at = plan.at();
}
