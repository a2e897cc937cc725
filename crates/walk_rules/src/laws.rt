//! Laws of the walk and of what is chosen, each the contract of a function with an empty body.
ghost use Rattle.std.specs.Prelude.{◌≡◌, ◌↔◌, ℕ, ◌≤◌, true, false, List, [], ◌∷◌, ◌++◌, length, filter, Some, slice_get};
ghost use Rattle.std.specs.List.{flat_map};
ghost use Rattle.game_rules.specs.Board.{is_board};
ghost use Rattle.game_rules.specs.Position.{Position, board_of};
ghost use Rattle.game_rules.specs.Value.{wins};
ghost use Rattle.game_rules.specs.declared.Side.TheVariants as sides;
ghost use Rattle.plan_rules.specs.Rules.{RuleInstance};
ghost use Rattle.plan_rules.specs.Plan.{is_plan};
ghost use Rattle.walk_rules.specs.Walk.{fitting_zones, may_follow, walk_from, is_plan_position, walk, given, gives_plan, solved, Chosen, choice_of, is_given};
ghost use Rattle.walk_rules.specs.Steps.{is_zone_set};
ghost use Rattle.walk_rules.specs.Choice.{IsChoice};

/// The walk from a set visits the set, and then walks from the set with one zone more, for each fitting zone that may
/// follow it, in their order.
pub fn the_walk_step_by_step()
    ensures { (p : Position) (set : List RuleInstance) → walk_from p set ≡ set ∷ flat_map (λ w. walk_from p (set ++ w ∷ [])) (filter (may_follow p set) (fitting_zones p)) }
{}

/// Each member of a set of the walk is a zone instance that fits, and each two may stand together. So on any board a
/// set has at most fifty zones, and the list that it gives at most 288 instances: fifty zones and an answer to each of
/// 238 groups.
pub fn the_sets_of_a_walk()
    ensures sets { (p : Position) (i : ℕ) (set : List RuleInstance) → slice_get (walk p) i ≡ Some set → is_zone_set p set ≡ true }
    ensures zones { (p : Position) (i : ℕ) (set : List RuleInstance) → is_board (board_of p) ≡ true → slice_get (walk p) i ≡ Some set → length set ≤ 50 }
    ensures given { (p : Position) (i : ℕ) (set : List RuleInstance) → is_board (board_of p) ≡ true → slice_get (walk p) i ≡ Some set → length (given p set) ≤ 288 }
{}

/// The list that a set gives, which has one answer to each group that needs one, is a plan exactly where the set with
/// all standing instances that it supports is one. This holds of every list, and not of the sets of the walk alone.
pub fn a_set_gives_a_plan_where_the_whole_of_it_is_one()
    ensures { (p : Position) (set : List RuleInstance) → is_plan p (given p set) ≡ gives_plan p set }
{}

/// A list is chosen exactly where a set among the first k gives it, no set before that one gives a plan, and that set
/// does; there is no plan exactly where there are at most k sets and none gives one; and the first k sets are spent
/// exactly where there are more, and none of the first k gives one.
pub fn the_choice_in_words()
    ensures { (p : Position) (k : ℕ) (chosen : Chosen) → (choice_of p k ≡ chosen) ↔ IsChoice p k (walk p) chosen }
{}

/// A position is solved within k sets exactly where a plan is chosen among them.
pub fn a_position_is_solved_where_a_plan_is_chosen()
    ensures { (p : Position) (k : ℕ) → solved p k ≡ is_given (choice_of p k) }
{}

/// At a solved position White is to move, the game goes on, and White doesn't win under perfect play.
pub fn white_wins_at_no_solved_position()
    ensures going { (p : Position) (k : ℕ) → solved p k ≡ true → is_plan_position p ≡ true }
    ensures wins { (p : Position) (k : ℕ) → solved p k ≡ true → wins sides.White p ≡ false }
{}
