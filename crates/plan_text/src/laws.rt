//! Laws of the definitions, each the contract of a function with an empty body: each text is that of one square, group,
//! instance or list, and is read as that.
ghost use Rattle.std.specs.Prelude.{◌≡◌, ◌↔◌, ℕ, ◌≤◌, true, List, length, Some};
ghost use Rattle.std.specs.List.{AllByRecursion};
ghost use Rattle.game_rules.specs.Board.{Board, Square, is_board, on_board};
ghost use Rattle.game_rules.specs.Groups.{Group, lies_on};
ghost use Rattle.game_rules.specs.Position.{Position, board_of};
ghost use Rattle.plan_rules.specs.Rules.{RuleInstance, fits};
ghost use Rattle.plan_text.specs.Items.{square_text, group_text, instance_text, is_named, square_of, group_of, instance_of};
ghost use Rattle.plan_text.specs.PlanLine.{plan_text, PlanFits, IsPlanLine, read_plan};

/// A text is read as a square of a board exactly where it is that square's text and the board has the square; and as a
/// group exactly where it is that group's text and the group lies on the board. No two have the same text.
pub fn a_square_and_a_group_have_one_spelling()
    ensures square { (board : Board) (bytes : List ℕ) (u : Square) → is_board board ≡ true
        → (square_of board bytes ≡ Some u) ↔ ((on_board board u ≡ true) × (bytes ≡ square_text u)) }
    ensures group { (board : Board) (bytes : List ℕ) (g : Group) → is_board board ≡ true
        → (group_of board bytes ≡ Some g) ↔ ((lies_on board g ≡ true) × (bytes ≡ group_text g)) }
    ensures squares_apart { (board : Board) (u v : Square) → is_board board ≡ true → on_board board u ≡ true → on_board board v ≡ true → square_text u ≡ square_text v → u ≡ v }
    ensures groups_apart { (board : Board) (g h : Group) → is_board board ≡ true → lies_on board g ≡ true → lies_on board h ≡ true → group_text g ≡ group_text h → g ≡ h }
{}

/// A text is read as an instance exactly where it is that instance's text and the instance is one of the board. No two
/// instances of a board have the same text.
pub fn an_instance_has_one_spelling()
    ensures instance { (board : Board) (bytes : List ℕ) (w : RuleInstance) → (instance_of board bytes ≡ Some w) ↔ ((is_named board w ≡ true) × (bytes ≡ instance_text w)) }
    ensures apart { (board : Board) (w v : RuleInstance) → is_named board w ≡ true → is_named board v ≡ true → instance_text w ≡ instance_text v → w ≡ v }
{}

/// A line is read as a list of instances exactly where it is in the grammar and says them. Bytes are the line of one
/// list.
pub fn a_plan_line_that_is_read_is_in_the_grammar()
    ensures reads { (board : Board) (bytes : List ℕ) (ws : List RuleInstance) → (read_plan board bytes ≡ Some ws) ↔ IsPlanLine board bytes ws }
    ensures once { (board : Board) (bytes : List ℕ) (ws vs : List RuleInstance) → IsPlanLine board bytes ws → IsPlanLine board bytes vs → ws ≡ vs }
{}

/// An instance of a board has at most 16 bytes, none of which is a space or a line feed: none is below `+`. A line of
/// instances of a board has at most 5,104 bytes, none of which is a line feed: none is below the space.
pub fn a_plan_line_is_short()
    ensures instance { (board : Board) (w : RuleInstance) → is_named board w ≡ true → length (instance_text w) ≤ 16 }
    ensures bytes { (board : Board) (w : RuleInstance) → is_named board w ≡ true → AllByRecursion (λ byte. 43 ≤ byte) (instance_text w) }
    ensures line { (board : Board) (ws : List RuleInstance) → PlanFits board ws → length (plan_text ws) ≤ 5104 }
    ensures feed { (board : Board) (bytes : List ℕ) (ws : List RuleInstance) → IsPlanLine board bytes ws → AllByRecursion (λ byte. 32 ≤ byte) bytes }
{}

/// Whatever fits at a position of a board is an instance of that board, so it has a text.
pub fn what_fits_has_a_spelling()
    ensures { (p : Position) (w : RuleInstance) → is_board (board_of p) ≡ true → fits w p ≡ true → is_named (board_of p) w ≡ true }
{}
