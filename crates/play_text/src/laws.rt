//! Laws of the definitions, each the contract of a function with an empty body: that play goes line by line, that its lines
//! tell the duel by a plan, and that White gets no line in it.
ghost use Rattle.std.specs.Prelude.{◌≡◌, ◌≢◌, ℕ, ◌+◌, true, List, ◌∷◌, ◌++◌, map, length, Ok};
ghost use Rattle.game_rules.specs.Position.{Position, board_of};
ghost use Rattle.game_rules.specs.Text.{game_at};
ghost use Rattle.plan_rules.specs.Rules.{RuleInstance};
ghost use Rattle.plan_rules.specs.Plan.{is_plan, is_playable_list};
ghost use Rattle.plan_text.specs.PlanLine.{PlanFits, plan_text};
ghost use Rattle.proof_text.specs.Texts.{pieces, game_of, behind_game};
ghost use Rattle.play_text.specs.Play.{AllPlayed, Turn, behind, move_line, played_by, play_from, play_of};
ghost use Rattle.play_text.specs.Told.{IsTold};

/// Whatever is answered at a position, lines that stop play decide, whatever follows them; where all are moves, play goes on
/// behind them from a position. So what fewer lines give stands at the beginning of what more give.
pub fn play_goes_line_by_line()
    ensures stops { (turn : Position → ℕ → Turn Position) (q : Position) (at : ℕ) (xs ys : List (List ℕ)) → (played_by turn q at xs).end ≢ AllPlayed
        → played_by turn q at (xs ++ ys) ≡ played_by turn q at xs }
    ensures more { (turn : Position → ℕ → Turn Position) (q : Position) (at : ℕ) (xs ys : List (List ℕ)) → (played_by turn q at xs).end ≡ AllPlayed
        → (r : Position) × (played_by turn q at (xs ++ ys) ≡ behind (played_by turn q at xs).lines (played_by turn r (at + length xs) ys)) }
    ensures prefix { (turn : Position → ℕ → Turn Position) (q : Position) (at : ℕ) (xs ys : List (List ℕ))
        → (more : List (List ℕ)) × ((played_by turn q at (xs ++ ys)).lines ≡ (played_by turn q at xs).lines ++ more) }
{}

/// Whatever the input, its lines tell the duel by its plan, where it has one, and nothing is written where it has none. White
/// has no line in any position of the duel, and the plan never lacks an answer.
pub fn the_lines_tell_the_duel()
    ensures { (bytes : List ℕ) → IsTold bytes (play_of bytes).lines (play_of bytes).end }
{}

/// White's columns that are legal at their turns are all played. So an input is played to its end that has the two lines of a
/// game, the line of a plan at its position, and such columns, a line for each.
pub fn legal_columns_are_played()
    ensures columns { (p : Position) (ws : List RuleInstance) (at : ℕ) (columns : List ℕ) → is_plan p ws ≡ true → is_playable_list ws p columns ≡ true
        → (play_from ws p at (map move_line columns)).end ≡ AllPlayed }
    ensures input { (bytes : List ℕ) (root : Position) (ws : List RuleInstance) (columns : List ℕ) → game_at (game_of (pieces bytes)) ≡ Ok root
        → behind_game (pieces bytes) ≡ plan_text ws ∷ map move_line columns → PlanFits (board_of root) ws → is_plan root ws ≡ true → is_playable_list ws root columns ≡ true
        → (play_of bytes).end ≡ AllPlayed }
{}
