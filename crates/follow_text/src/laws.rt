//! Laws of the definitions, each the contract of a function with an empty body: that the side that a lemma serves is served
//! by following it, and that it never lacks a move.
ghost use Rattle.std.specs.Prelude.{◌≡◌, ◌≢◌, ◌↔◌, ℕ, ◌+◌, Bool, true, List, [], ◌∷◌, ◌++◌, length, map, Some, None, Ok};
ghost use Rattle.game_rules.specs.Board.{Board};
ghost use Rattle.game_rules.specs.Text.{game_at};
ghost use Rattle.game_rules.specs.Position.{Position, board_of, empty_position, other, side_to_move, end_of, is_legal, after_move, played};
ghost use Rattle.game_rules.specs.declared.Side.{Side};
ghost use Rattle.proof_text.specs.Lemma.{claims_win, Lemma};
ghost use Rattle.proof_text.specs.Right.{Shown, Shows, AreRight, IsVerdict};
ghost use Rattle.proof_text.specs.Texts.{pieces, game_of, behind_game, first_line, lemmas_said, answer_of, Accepted};
ghost use Rattle.proof_text.specs.declared.Claim.{Claim};
ghost use Rattle.proof_text.specs.declared.Version.{Version};
ghost use Rattle.proof_text.specs.declared.Verdict.{Verdict};
ghost use Rattle.play_text.specs.Play.{AllPlayed, NoReply, behind, move_line};
ghost use Rattle.follow_text.specs.Following.{served_by, seen, Following, own_move_at, answer_to, game_by, is_game_by, IsServed, IsHeld, Follows, HasMove};
ghost use Rattle.follow_text.specs.Follow.{follow_from, follow_at, named_for, is_won, follow_of};

/// Let a root be reached by legal moves, some lemmas be right from there, and one of them show a claim of the root. Then the
/// side that the claim serves is served by following the lemmas, whatever legal moves the other side plays: its own moves are
/// legal, it never lacks one, the other side has no line at any position, and where the claim is that a side wins, the game
/// ends in no other way than by that side's line.
pub fn a_right_proof_serves_its_side()
    ensures { (board : Board) (before : List ℕ) (root : Position) (ls : List Lemma) (after : List Shown) (n : ℕ) (claim : Claim) (columns : List ℕ)
        → played (empty_position board) before ≡ Some root → AreRight root [] ls after → Shows after n root claim → is_game_by ls root n columns ≡ true
        → IsServed claim root (game_by ls root n columns) }
{}

/// At a lemma that stands at the position as it is seen, a move is named exactly where the game goes on and the side that
/// the lemma serves is to move. The move is legal, and play by the claim goes on behind it.
pub fn a_move_is_named_where_one_is_wanted()
    ensures named { (root : Position) (ls : List Lemma) (after : List Shown) (claim : Claim) (n : ℕ) (turned : Bool) (q : Position) → AreRight root [] ls after
        → Shows after n (seen turned q) claim → end_of q ≡ None → side_to_move q ≡ served_by claim
        → HasMove after claim q (own_move_at ls (length q.columns) n turned) }
    ensures only { (root : Position) (ls : List Lemma) (after : List Shown) (claim : Claim) (n : ℕ) (turned : Bool) (q : Position) → AreRight root [] ls after
        → Shows after n (seen turned q) claim → own_move_at ls (length q.columns) n turned ≢ None → (end_of q ≡ None) × (side_to_move q ≡ served_by claim) }
    ensures held { (root : Position) (ls : List Lemma) (after : List Shown) (claim : Claim) (n : ℕ) (turned : Bool) (q : Position) → AreRight root [] ls after
        → Shows after n (seen turned q) claim → IsHeld claim q }
{}

/// Where play by a claim stands and the other side is to move, the claim is held after each legal move of that side; and
/// while the game goes on, the move has an answer, which is legal, holds the claim, and behind which play goes on.
pub fn each_move_is_answered()
    ensures { (root : Position) (ls : List Lemma) (after : List Shown) (claim : Claim) (s : Following) (q : Position) (column : ℕ) → AreRight root [] ls after
        → Follows after claim s q → side_to_move q ≡ other (served_by claim) → is_legal q column ≡ true
        → IsHeld claim (after_move q column) × (end_of (after_move q column) ≡ None → HasMove after claim (after_move q column) (answer_to ls s q column)) }
{}

/// The lemma that a right verdict names for a side shows a claim of the root that serves this side: that it wins, where the verdict is
/// that a side wins, and else that the other side doesn't. From there, whatever lines are read, no answer is wanting.
pub fn the_lemma_that_is_named_serves()
    ensures claim { (root : Position) (after : List Shown) (holder : Side) (v : Verdict) (n : ℕ) → IsVerdict root after v
        → named_for holder (side_to_move root) v ≡ Some n → (claim : Claim) × Shows after n root claim × (served_by claim ≡ holder) × (claims_win claim ≡ is_won v) }
    ensures answers { (root : Position) (ls : List Lemma) (after : List Shown) (claim : Claim) (holder : Side) (n at : ℕ) (lines : List (List ℕ))
        → AreRight root [] ls after → Shows after n root claim → (follow_at ls holder root n at lines).end ≢ NoReply }
{}

/// Lines that stop play decide, whatever follows them; where all are moves, play goes on behind them.
pub fn following_goes_line_by_line()
    ensures stops { (ls : List Lemma) (holder : Side) (s : Following) (q : Position) (at : ℕ) (xs ys : List (List ℕ))
        → (follow_from ls holder s q at xs).end ≢ AllPlayed → follow_from ls holder s q at (xs ++ ys) ≡ follow_from ls holder s q at xs }
    ensures more { (ls : List Lemma) (holder : Side) (s : Following) (q : Position) (at : ℕ) (xs ys : List (List ℕ))
        → (follow_from ls holder s q at xs).end ≡ AllPlayed → (next : Following) × (r : Position)
        × (follow_from ls holder s q at (xs ++ ys) ≡ behind (follow_from ls holder s q at xs).lines (follow_from ls holder next r (at + length xs) ys)) }
{}

/// An input that begins with a proof that is accepted, whose verdict names a lemma for the holder, and that has a line behind it
/// for each of some columns, which are legal, each at its turn, is played to its end.
pub fn a_right_proof_is_played_to_its_end()
    ensures { (holder : Side) (version : Version) (bytes : List ℕ) (more : List (List ℕ)) (root : Position) (proof : List (List ℕ)) (columns : List ℕ)
        (v : Verdict) (count n : ℕ) → pieces bytes ≡ first_line version ∷ more → game_at (game_of more) ≡ Ok root
        → behind_game more ≡ proof ++ map move_line columns → answer_of version root proof ≡ Accepted v count
        → named_for holder (side_to_move root) v ≡ Some n → is_game_by (lemmas_said version (board_of root) proof) root n columns ≡ true
        → (follow_of holder bytes).end ≡ AllPlayed }
{}
