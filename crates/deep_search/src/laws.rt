//! What is said of the lemmas of a search, in words, as the contract of a function with an empty body.
ghost use Rattle.std.specs.Prelude.{◌≡◌, ◌↔◌, ℕ, true, List, Some};
ghost use Rattle.game_rules.specs.Position.{Position, played, side_to_move};
ghost use Rattle.game_rules.specs.declared.Side.TheVariants as sides;
ghost use Rattle.plan_rules.specs.Rules.{RuleInstance};
ghost use Rattle.proof_text.specs.Lemma.{claim_side, ByPlan, Lemma};
ghost use Rattle.walk_rules.specs.Walk.{solved, choice_of, gave};
ghost use Rattle.deep_search.specs.Planned.{IsPlanned};

/// A lemma of a search rests on a plan exactly where it claims something of White, White is to move at its position, and
/// one of the first `k` sets of zones gives a plan there: then on the plan that the first of these sets gives.
pub fn a_lemma_rests_on_a_plan_where_one_is_chosen()
    ensures { (k : ℕ) (root p : Position) (l : Lemma) (ws : List RuleInstance) → played root l.path ≡ Some p → IsPlanned k root l
        → (l.reason ≡ ByPlan ws) ↔ ((claim_side l.claim ≡ sides.White) × (side_to_move p ≡ sides.White) × (solved p k ≡ true) × (choice_of p k ≡ gave ws)) }
{}
