//! Laws of the check of a plan, each the contract of a function with an empty body: why a list is no plan, how many
//! zones and twins its members have, and which member answers a line.
ghost use Rattle.std.specs.Prelude.{◌≡◌, ◌↔◌, ℕ, ◌≤◌, Bool, true, false, List, filter, length, Some, is_none};
ghost use Rattle.std.specs.List.{list_any};
ghost use Rattle.game_rules.specs.Board.{is_board};
ghost use Rattle.game_rules.specs.Position.{Position, board_of, has_man};
ghost use Rattle.game_rules.specs.Groups.{Group, squares_of, lies_on};
ghost use Rattle.game_rules.specs.declared.Side.TheVariants as sides;
ghost use Rattle.plan_rules.specs.Rules.{RuleInstance, facts_of, barred};
ghost use Rattle.plan_rules.specs.Plan.{is_plan, empty_part};
ghost use Rattle.plan_rules.specs.Zones.{owns_zone, IsFirstAt};
ghost use Rattle.plan_rules.specs.Refusal.{PlanFault, plan_refusal, answering, StandTogether, IsRefusal};

/// A list has no refusal exactly where it is a plan.
pub fn a_list_without_refusal_is_a_plan()
    ensures { (p : Position) (ws : List RuleInstance) → is_none (plan_refusal p ws) ≡ is_plan p ws }
{}

/// A list is refused for a fault exactly where the fault's own condition holds and that of no fault before it: Black is
/// to move; the game has ended; the first member that doesn't fit; the least two members that may not stand together;
/// the first empty square, in square order, in no zone; the first member without support; the first group, in group
/// order, without a Black man that no member bars.
pub fn each_refusal_in_words()
    ensures { (p : Position) (ws : List RuleInstance) (fault : PlanFault) → (plan_refusal p ws ≡ Some fault) ↔ IsRefusal p ws fault }
{}

/// Where each member fits and each two may stand together, at most fifty members own a zone on any board, and at most
/// five give twins. The members of a plan are such.
pub fn members_that_stand_together_are_few()
    ensures zones { (p : Position) (ws : List RuleInstance) → is_board (board_of p) ≡ true → StandTogether p ws → length (filter owns_zone ws) ≤ 50 }
    ensures twins { (p : Position) (ws : List RuleInstance) → is_board (board_of p) ≡ true → StandTogether p ws → length (facts_of p ws).twin ≤ 5 }
    ensures plan { (p : Position) (ws : List RuleInstance) → is_plan p ws ≡ true → StandTogether p ws }
{}

/// In a plan no member answers a line of the board exactly where the line has a Black man. The member that answers one
/// is the first that bars its empty squares, counted from 1.
pub fn the_first_member_that_bars_answers_a_line()
    ensures none { (p : Position) (ws : List RuleInstance) (g : Group) → is_plan p ws ≡ true → lies_on (board_of p) g ≡ true
        → is_none (answering p ws g) ≡ list_any (has_man p sides.Black) (squares_of g) }
    ensures first { (p : Position) (ws : List RuleInstance) (g : Group) (i : ℕ)
        → (answering p ws g ≡ Some i) ↔ ((list_any (has_man p sides.Black) (squares_of g) ≡ false) × IsFirstAt (λ w. barred w (facts_of p ws) (empty_part p g)) 1 ws i) }
{}
