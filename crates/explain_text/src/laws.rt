//! Laws of the definitions, each the contract of a function with an empty body.
ghost use Rattle.std.specs.Prelude.{◌≡◌, ℕ, true, List, is_some, Some};
ghost use Rattle.game_rules.specs.Board.{is_board};
ghost use Rattle.game_rules.specs.Groups.{Group, lies_on};
ghost use Rattle.game_rules.specs.Position.{Position, board_of};
ghost use Rattle.plan_rules.specs.Rules.{RuleInstance};
ghost use Rattle.plan_rules.specs.Plan.{is_plan};
ghost use Rattle.plan_text.specs.PlanLine.{plan_text, read_plan};
ghost use Rattle.walk_rules.specs.Walk.{gave, choice_of};
ghost use Rattle.explain_text.specs.Explanation.{is_white, answerer};

/// In a plan each group of White's, which are those without a man of Black's, has an instance that answers it.
pub fn each_group_of_white_has_its_answer()
    ensures { (p : Position) (ws : List RuleInstance) (g : Group) → is_plan p ws ≡ true → lies_on (board_of p) g ≡ true
        → is_white p g ≡ true → is_some (answerer p ws g) ≡ true }
{}

/// The first line of an explained plan is read again as its list.
pub fn the_plan_line_is_read_again()
    ensures { (p : Position) (reach : ℕ) (ws : List RuleInstance) → is_board (board_of p) ≡ true → choice_of p reach ≡ gave ws
        → read_plan (board_of p) (plan_text ws) ≡ Some ws }
{}
