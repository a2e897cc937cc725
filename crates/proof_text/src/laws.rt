//! Laws of the definitions, each the contract of a function with an empty body: that right proofs say what is true,
//! that refusals come exactly where something isn't right, and that reading and spelling are one.
ghost use Rattle.std.specs.Prelude.{◌≡◌, ◌≢◌, ◌↔◌, ◌⊎◌, ℕ, ◌+◌, ◌≤◌, ◌<◌, true, List, [], ◌∷◌, ◌++◌, length, false, Some, None, Ok, Err, flat_map};
ghost use Rattle.std.specs.List.{AllByRecursion};
ghost use Rattle.game_rules.specs.Board.{Board, is_board};
ghost use Rattle.game_rules.specs.Position.{Position, board_of, empty_position, played};
ghost use Rattle.game_rules.specs.Value.{value};
ghost use Rattle.game_rules.specs.Text.{game_at};
ghost use Rattle.game_rules.specs.declared.InputFault.{InputFault};
ghost use Rattle.game_rules.specs.declared.End.TheVariants as ends;
ghost use Rattle.proof_text.specs.Lemma.{claim_holds, Lemma, Line};
ghost use Rattle.proof_text.specs.Right.{Shown, Shows, IsRight, AreRight, IsVerdict, AreTrue, IsTrueVerdict};
ghost use Rattle.proof_text.specs.Checked.{CheckerState, Why, lemma_refusal, verdict_stands, checked, IsStateAfter};
ghost use Rattle.proof_text.specs.Spelling.{lemma_text, verdict_text, as_line, longest_line, greatest_number, Fits, IsShort, VerdictFits, IsAnyLine, IsLine};
ghost use Rattle.proof_text.specs.Reading.{read_line};
ghost use Rattle.proof_text.specs.Texts.{is_feed, pieces, lines_in, first_number, game_of, whole_game_of, behind_game, state_after, refusal_at, CheckAnswer, NoGame, Refused, Accepted, verdict_answer, check_from, start, answer_of, first_line, check_in, check_of, head_of, lemmas_among, IsRightText};
ghost use Rattle.proof_text.specs.Written.{IsProof};
ghost use Rattle.proof_text.specs.Upgrade.{first_shown, upgraded, upgraded_text};
ghost use Rattle.proof_text.specs.declared.Verdict.{Verdict};
ghost use Rattle.proof_text.specs.declared.Version.{Version};
ghost use Rattle.proof_text.specs.declared.Version.TheVariants as versions;
ghost use Rattle.proof_text.specs.declared.Claim.{Claim};
ghost use Rattle.proof_text.specs.declared.Claim.TheVariants as claims;
ghost use Rattle.proof_text.specs.declared.Why.TheVariants as whys;

/// A claim is true where the value is the end that it speaks of, or isn't.
pub fn claims_speak_of_the_value()
    ensures white_wins { (p : Position) → (claim_holds claims.WhiteWins p ≡ true) ↔ (value p ≡ ends.White) }
    ensures white_fails { (p : Position) → (claim_holds claims.WhiteFails p ≡ true) ↔ (value p ≢ ends.White) }
    ensures black_wins { (p : Position) → (claim_holds claims.BlackWins p ≡ true) ↔ (value p ≡ ends.Black) }
    ensures black_fails { (p : Position) → (claim_holds claims.BlackFails p ≡ true) ↔ (value p ≢ ends.Black) }
{}

/// What right lemmas claim is true of the value, and a right verdict says the value of the root for the side to move.
pub fn right_lemmas_claim_what_is_true()
    ensures lemmas { (root : Position) (known : List Shown) (ls : List Lemma) (after : List Shown) → AreRight root known ls after → AreTrue known → AreTrue after }
    ensures verdict { (root : Position) (known : List Shown) (v : Verdict) → AreTrue known → IsVerdict root known v → IsTrueVerdict root v }
{}

/// A lemma is refused exactly where it isn't right at any position, and a verdict where it isn't right.
pub fn what_is_right_is_not_refused()
    ensures lemma { (root : Position) (known : List Shown) (l : Lemma) → (lemma_refusal root known l ≡ None) ↔ ((p : Position) × IsRight root known l p) }
    ensures verdict { (root : Position) (known : List Shown) (v : Verdict) → (verdict_stands root known v ≡ true) ↔ IsVerdict root known v }
{}

/// After lines that were all accepted stands what their right lemmas show, and their verdict.
pub fn accepted_lines_are_stood_for()
    ensures { (s t : CheckerState) (at : ℕ) (lines : List Line) → s.verdict ≡ None → checked s at lines ≡ Ok t → IsStateAfter s lines t }
{}

/// A line is read exactly where it is in the grammar of the version, and as what the grammar says; bytes are a line in one
/// way, whatever the version.
pub fn a_line_that_is_read_is_in_the_grammar()
    ensures reads { (version : Version) (board : Board) (bytes : List ℕ) (line : Line) → (read_line version board bytes ≡ Some line) ↔ IsLine version board bytes line }
    ensures once { (board : Board) (bytes : List ℕ) (line other : Line) → IsAnyLine board bytes line → IsAnyLine board bytes other → line ≡ other }
{}

/// No spelling is that of two lemmas, of two verdicts, or of a lemma and a verdict.
pub fn no_spelling_is_that_of_two()
    ensures lemmas { (board : Board) (l m : Lemma) → Fits board l → Fits board m → lemma_text l ≡ lemma_text m → l ≡ m }
    ensures verdicts { (v w : Verdict) → VerdictFits v → VerdictFits w → verdict_text v ≡ verdict_text w → v ≡ w }
    ensures apart { (board : Board) (l : Lemma) (v : Verdict) → Fits board l → VerdictFits v → lemma_text l ≢ verdict_text v }
{}

/// No line of the grammar has a line feed or more bytes than a line may have; lemmas and verdicts are much shorter.
pub fn a_line_has_no_line_feed()
    ensures feed { (board : Board) (bytes : List ℕ) (line : Line) → IsAnyLine board bytes line → AllByRecursion (λ byte. is_feed byte ≡ false) bytes }
    ensures short { (board : Board) (bytes : List ℕ) (line : Line) → IsAnyLine board bytes line → length bytes ≤ longest_line }
    ensures lemma { (board : Board) (l : Lemma) → Fits board l → length (lemma_text l) ≤ 5217 }
    ensures verdict { (v : Verdict) → VerdictFits v → length (verdict_text v) ≤ 28 }
{}

/// Lines without line feeds that are joined to a text are the lines of that text, whatever follows.
pub fn a_text_is_cut_into_the_lines_that_it_was_joined_from()
    ensures pieces { (lines : List (List ℕ)) (rest : List ℕ) → AllByRecursion (λ line. AllByRecursion (λ byte. is_feed byte ≡ false) line) lines
        → pieces (flat_map as_line lines ++ rest) ≡ lines ++ pieces rest }
    ensures lines { (lines : List (List ℕ)) → AllByRecursion (λ line. AllByRecursion (λ byte. is_feed byte ≡ false) line) lines
        → lines_in (pieces (flat_map as_line lines)) ≡ lines }
{}

/// Right lemmas from the root of a game have spellings, while their numbers are within those of the grammar; and so has
/// a right verdict.
pub fn what_is_right_has_a_spelling()
    ensures lemmas { (root : Position) (known : List Shown) (ls : List Lemma) (after : List Shown) → is_board (board_of root) ≡ true
        → length known + length ls ≤ greatest_number → AllByRecursion IsShort ls → AreRight root known ls after → AllByRecursion (Fits (board_of root)) ls }
    ensures verdict { (root : Position) (known : List Shown) (v : Verdict) → length known ≤ greatest_number → IsVerdict root known v → VerdictFits v }
{}

/// The lines behind a game are refused at the first that fails, by its name, where the lines before it stand; where none
/// fails there has to be a verdict. Going through the lines one by one gives the same answer.
pub fn the_first_line_that_fails_is_refused()
    ensures first { (version : Version) (root : Position) (lines : List (List ℕ)) (k : ℕ) (why : Why) → k < length lines → refusal_at version root lines k ≡ Some why
        → ((i : ℕ) → i < k → refusal_at version root lines i ≡ None) → answer_of version root lines ≡ Refused (k + first_number) why }
    ensures none { (version : Version) (root : Position) (lines : List (List ℕ)) → ((i : ℕ) → i < length lines → refusal_at version root lines i ≡ None)
        → answer_of version root lines ≡ verdict_answer (length lines + first_number) (length (state_after version root lines).known) (state_after version root lines).verdict }
    ensures only { (version : Version) (root : Position) (lines : List (List ℕ)) (at : ℕ) (why : Why) → answer_of version root lines ≡ Refused at why
        → ((k : ℕ) × (k < length lines) × (at ≡ k + first_number) × (refusal_at version root lines k ≡ Some why) × ((i : ℕ) → i < k → refusal_at version root lines i ≡ None))
        ⊎ ((at ≡ length lines + first_number) × (why ≡ whys.EndedEarly) × ((state_after version root lines).verdict ≡ None)
        × ((i : ℕ) → i < length lines → refusal_at version root lines i ≡ None)) }
    ensures one_by_one { (version : Version) (root : Position) (lines : List (List ℕ)) → answer_of version root lines ≡ check_from version (start root) first_number lines }
{}

/// A text that doesn't begin with the first line of a version is refused there; where it is to be of one version, with
/// that of another too. Behind it stands a game, or the fault of the game's text is the answer; and each of the two lines
/// of the game may be cut to its prefix without a change.
pub fn a_text_has_a_head_and_a_game()
    ensures head { (bytes : List ℕ) (first : List ℕ) (more : List (List ℕ)) → pieces bytes ≡ first ∷ more → ((version : Version) → first ≢ first_line version)
        → check_of bytes ≡ Refused 1 whys.BadLine }
    ensures own_head { (version : Version) (bytes : List ℕ) (first : List ℕ) (more : List (List ℕ)) → pieces bytes ≡ first ∷ more → first ≢ first_line version
        → check_in version bytes ≡ Refused 1 whys.BadLine }
    ensures named { (version : Version) (bytes : List ℕ) (more : List (List ℕ)) → pieces bytes ≡ first_line version ∷ more → check_of bytes ≡ check_in version bytes }
    ensures fault { (version : Version) (bytes : List ℕ) (more : List (List ℕ)) (fault : InputFault) → pieces bytes ≡ first_line version ∷ more
        → game_at (game_of more) ≡ Err fault → check_of bytes ≡ NoGame fault }
    ensures only_fault { (bytes : List ℕ) (fault : InputFault) → check_of bytes ≡ NoGame fault
        → (version : Version) × (more : List (List ℕ)) × (pieces bytes ≡ first_line version ∷ more) × (game_at (game_of more) ≡ Err fault) }
    ensures game { (version : Version) (bytes : List ℕ) (more : List (List ℕ)) (root : Position) → pieces bytes ≡ first_line version ∷ more
        → game_at (game_of more) ≡ Ok root → check_of bytes ≡ check_from version (start root) first_number (behind_game more) }
    ensures prefix { (more : List (List ℕ)) → game_at (game_of more) ≡ game_at (whole_game_of more) }
{}

/// A whole text is accepted exactly where it is right in some version, with its verdict and the number of its lemmas; and
/// a text that is to be of one version exactly where it is right in that one.
pub fn a_text_is_accepted_exactly_where_it_is_right()
    ensures any { (bytes : List ℕ) (v : Verdict) (count : ℕ) → (check_of bytes ≡ Accepted v count) ↔ ((version : Version) × IsRightText version bytes v count) }
    ensures own { (version : Version) (bytes : List ℕ) (v : Verdict) (count : ℕ) → (check_in version bytes ≡ Accepted v count) ↔ IsRightText version bytes v count }
{}

/// In a right text each lemma's claim is true, and a win, a loss or a draw is the value of the root.
pub fn a_right_text_says_what_is_true()
    ensures { (version : Version) (bytes : List ℕ) (v : Verdict) (count : ℕ) (text : IsRightText version bytes v count) → AreTrue text.after × IsTrueVerdict text.root v }
{}

/// A proof that stands written whole behind the head of its game is a right text, and so it is accepted.
pub fn what_is_written_whole_is_right()
    ensures right { (version : Version) (board : Board) (columns : List ℕ) (root : Position) (text : List ℕ) (v : Verdict)
        (proof : IsProof version root (head_of version board columns) text v)
        → is_board board ≡ true → played (empty_position board) columns ≡ Some root → length proof.after ≤ greatest_number
        → IsRightText version text v (length proof.after) }
    ensures accepted { (version : Version) (board : Board) (columns : List ℕ) (root : Position) (text : List ℕ) (v : Verdict)
        (proof : IsProof version root (head_of version board columns) text v)
        → is_board board ≡ true → played (empty_position board) columns ≡ Some root → length proof.after ≤ greatest_number → check_of text ≡ Accepted v (length proof.after) }
{}

/// The number by which an image is cited is the least of a lemma that shows the claim at the position, and there is none
/// exactly where no lemma does.
pub fn the_first_lemma_is_cited()
    ensures shows { (p : Position) (claim : Claim) (known : List Shown) (n : ℕ) → first_shown p claim known ≡ Some n → Shows known n p claim }
    ensures least { (p : Position) (claim : Claim) (known : List Shown) (n m : ℕ) → first_shown p claim known ≡ Some n → Shows known m p claim → n ≤ m }
    ensures none { (p : Position) (claim : Claim) (known : List Shown) (m : ℕ) → first_shown p claim known ≡ None → Shows known m p claim → ⊥ }
{}

/// What is written of a right proof of the first version is a right proof of the second, of the same game, with as many
/// lemmas and the same verdict. Its lemmas show the same as before.
pub fn an_upgraded_proof_is_right()
    ensures text { (bytes : List ℕ) (v : Verdict) (count : ℕ) (text : IsRightText versions.One bytes v count)
        → IsRightText versions.Two (upgraded_text text.root text.board text.columns (lemmas_among text.entries) v) v count }
    ensures lemmas { (root : Position) (known : List Shown) (ls : List Lemma) (after : List Shown) → AreRight root known ls after
        → AreRight root known (upgraded root known ls) after }
{}
