//! Laws of the nine rules and of plans, each the contract of a function with an empty body. The first group is what
//! every rule keeps; the second follows from it and from the table of instances that may stand together: by a plan
//! Black has a reply to each move of White's, and White never has a line.
ghost use Rattle.std.specs.Prelude.{◌≡◌, ◌≢◌, ◌↔◌, ℕ, ◌≤◌, true, false, not, ◌||◌, List, length, Some, is_none, is_some, slice_get};
ghost use Rattle.game_rules.specs.Board.{Square};
ghost use Rattle.game_rules.specs.Position.{Position, board_of, is_legal};
ghost use Rattle.game_rules.specs.Value.{value, wins};
ghost use Rattle.game_rules.specs.Laws.{HasLine};
ghost use Rattle.game_rules.specs.Squares.{has_square, is_empty};
ghost use Rattle.game_rules.specs.declared.Side.TheVariants as sides;
ghost use Rattle.game_rules.specs.declared.End.TheVariants as ends;
ghost use Rattle.plan_rules.specs.Squares.{column_up, is_even, is_odd, men_on};
ghost use Rattle.plan_rules.specs.Rules.{RuleInstance, kind_of, zone_of, black_group_of, has_shape, fits, reply_to, has_no_answer, upper_of, pair_of, twin_of, barred, is_supported, together};
ghost use Rattle.plan_rules.specs.Calm.{is_paired, is_capped, is_shifted, is_calm};
ghost use Rattle.plan_rules.specs.Columns.{IsPairedColumn, IsCappedColumn, IsShiftedColumn};
ghost use Rattle.plan_rules.specs.Causes.{names_twins, names_no_reply};
ghost use Rattle.plan_rules.specs.Laws.{StartLaw, LocalLaw, StepLaw, FactLaw, BarLaw};
ghost use Rattle.plan_rules.specs.Plan.{is_plan, IsMember, IsPlan, IsKept, IsAnswered, IsTurn, after_turns, duel, is_playable_list};

/// An instance that fits is calm, and the line that it rests on is a line of the position's board.
pub fn an_instance_that_fits_is_calm()
    ensures { (w : RuleInstance) → StartLaw (fits w) (is_calm w) (black_group_of w) }
{}

/// Whether an instance is calm depends on the squares of its zone alone, so men elsewhere never change it.
pub fn calm_depends_on_the_zone_alone()
    ensures { (w : RuleInstance) → LocalLaw (zone_of w) (is_calm w) }
{}

/// The instance fitted at a position of the same board, it is calm, the columns of its zone are filled below its lowest
/// zone squares, and White plays a playable square of the zone. Then the reply is a square of the zone, it is playable
/// after White's move, and the instance is calm after both men.
pub fn a_move_in_a_zone_is_answered_in_it()
    ensures { (w : RuleInstance) → StepLaw (zone_of w) (fits w) (is_calm w) (reply_to w) }
{}

/// A square has no reply exactly where it isn't in the zone, or is a Claimeven's upper square, or is a Lowinverse's top
/// while the other column is full.
pub fn a_reply_is_missing_where_the_rule_names_none()
    ensures { (w : RuleInstance) (now : Position) (last : Square) → is_none (reply_to w now last) ≡ (not (has_square (zone_of w) last) || has_no_answer w now last) }
{}

/// What the kind and the zone alone say: an instance with its shape has no reply exactly where its rule names none, and
/// it has twins exactly where its rule is Baseinverse.
pub fn the_kind_and_the_zone_say_what_is_missing()
    ensures reply { (w : RuleInstance) (now : Position) (last : Square) → has_shape w (board_of now) ≡ true
        → is_none (reply_to w now last) ≡ names_no_reply (kind_of w) (zone_of w) now last }
    ensures twin { (w : RuleInstance) → is_some (twin_of w) ≡ names_twins (kind_of w) }
{}

/// The instance fitted where the empty squares were those of the facts, it is supported by them and calm, the facts are
/// true of the men, and Black's men are still there. Then White owns no barred set whole; for a rule with a line of
/// Black's, where White owns one, the line is all Black's.
pub fn white_owns_no_barred_set()
    ensures { (w : RuleInstance) → BarLaw (fits w) (is_supported w) (is_calm w) (barred w) (black_group_of w) }
{}

/// An instance that fitted and is calm makes true what it promises to others: no upper square is White's, no square of
/// a pair is White's together with the one above, and of two twins not both are White's.
pub fn an_instance_keeps_what_it_promises()
    ensures { (w : RuleInstance) → FactLaw (fits w) (is_calm w) (upper_of w) (pair_of w) (twin_of w) }
{}

/// The three kinds of column of a Lowinverse, said by its squares: paired, capped and shifted.
pub fn columns_of_a_lowinverse_in_words()
    ensures paired { (p : Position) (bottom : Square) (size : ℕ) → 1 ≤ bottom.1 → (is_paired (men_on p (column_up bottom size)) ≡ true) ↔ IsPairedColumn p bottom size }
    ensures capped { (p : Position) (bottom : Square) (size : ℕ) → 1 ≤ bottom.1 → is_odd size ≡ true
        → (is_capped size (men_on p (column_up bottom size)) ≡ true) ↔ IsCappedColumn p bottom size }
    ensures shifted { (p : Position) (bottom : Square) (size : ℕ) → 1 ≤ bottom.1 → (is_shifted (men_on p (column_up bottom size)) ≡ true) ↔ IsShiftedColumn p bottom size }
{}

/// A calm zone holds an even number of men.
pub fn a_calm_zone_holds_an_even_number_of_men()
    ensures { (w : RuleInstance) (q : Position) → is_calm w q ≡ true → is_even (length (men_on q (zone_of w))) ≡ true }
{}

/// Whether two instances may stand together is the same in both orders, and two that may share no square.
pub fn instances_that_stand_together()
    ensures orders { (v w : RuleInstance) → together v w ≡ together w v }
    ensures apart { (v w : RuleInstance) (u : Square) → together v w ≡ true → has_square (zone_of v) u ≡ true → has_square (zone_of w) u ≡ true → ⊥ }
{}

/// A plan in words of squares and lines; and each empty square stands in the zone of one member and of no other.
pub fn a_plan_in_words()
    ensures words { (p : Position) (ws : List RuleInstance) → (is_plan p ws ≡ true) ↔ IsPlan p ws }
    ensures one_zone { (p : Position) (ws : List RuleInstance) (i j : ℕ) (v w : RuleInstance) (u : Square) → is_plan p ws ≡ true → IsMember ws i v → IsMember ws j w
        → has_square (zone_of v) u ≡ true → has_square (zone_of w) u ≡ true → i ≡ j }
    ensures empty_zones { (p : Position) (ws : List RuleInstance) (i : ℕ) (w : RuleInstance) (u : Square) → is_plan p ws ≡ true → IsMember ws i w
        → has_square (zone_of w) u ≡ true → is_empty p u ≡ true }
{}

/// From a plan, after any of White's legal moves and the plan's replies: the board is the same, White is to move, the men
/// of the plan's position are still there, each zone is calm and holds an even number of men, each inverse has both
/// floors or neither and then no man, what standing members rest on is true, and White has no line.
pub fn a_plan_is_kept_whatever_white_plays()
    ensures { (p : Position) (ws : List RuleInstance) (columns : List ℕ) (q : Position) → is_plan p ws ≡ true → after_turns ws p columns ≡ Some q → IsKept p ws q }
{}

/// There each legal move of White's makes no line and doesn't end the game, and Black has a reply, a playable square.
pub fn black_always_has_a_reply()
    ensures { (p : Position) (ws : List RuleInstance) (columns : List ℕ) (q : Position) (column : ℕ) → is_plan p ws ≡ true → after_turns ws p columns ≡ Some q
        → is_legal q column ≡ true → IsAnswered ws q column }
{}

/// In the duel over columns of which each is legal at its turn, each column opens a turn: White's move and Black's
/// reply stand there one after the other, and all that a plan keeps holds before it. White has no line at any position
/// of the duel, those right after White's moves among them.
pub fn white_has_no_line_in_a_duel()
    ensures turns { (p : Position) (ws : List RuleInstance) (columns : List ℕ) (i column : ℕ) → is_plan p ws ≡ true → is_playable_list ws p columns ≡ true
        → slice_get columns i ≡ Some column → IsTurn p ws (duel ws p columns) i column }
    ensures none { (p : Position) (ws : List RuleInstance) (columns : List ℕ) (i : ℕ) (q : Position) → is_plan p ws ≡ true → is_playable_list ws p columns ≡ true
        → slice_get (duel ws p columns) i ≡ Some q → HasLine q sides.White → ⊥ }
{}

/// Where there is a plan, White doesn't win under perfect play.
pub fn a_plan_stops_white()
    ensures wins { (p : Position) (ws : List RuleInstance) → is_plan p ws ≡ true → wins sides.White p ≡ false }
    ensures value { (p : Position) (ws : List RuleInstance) → is_plan p ws ≡ true → value p ≢ ends.White }
{}
