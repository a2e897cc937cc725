//! Laws of trimmed proofs and of marks, each the contract of a function with an empty body.
ghost use Rattle.std.specs.Prelude.{◌≡◌, ◌≢◌, ◌↔◌, ◌<◌, ◌≤◌, ℕ, true, List, length, Contains};
ghost use Rattle.game_rules.specs.Position.{Position, side_to_move, after_move, is_legal};
ghost use Rattle.game_rules.specs.Value.{value};
ghost use Rattle.proof_text.specs.Lemma.{Lemma};
ghost use Rattle.proof_text.specs.Texts.{lemmas_among, IsRightText};
ghost use Rattle.proof_text.specs.declared.Verdict.{Verdict};
ghost use Rattle.proof_text.specs.declared.Version.{Version};
ghost use Rattle.tool_text.specs.Marks.{worth};
ghost use Rattle.tool_text.specs.Trim.{IsReached, CitesEarlier, is_reached, trimmed, trimmed_verdict, IsTrimmedText};

/// Where each lemma cites earlier ones alone, the test finds exactly what is reached.
pub fn the_test_finds_what_is_reached()
    ensures { (ls : List Lemma) (v : Verdict) (n : ℕ) → CitesEarlier 1 ls → (is_reached ls v n ≡ true) ↔ IsReached ls v n }
{}

/// What is written of a right text is right, in the same version, with a verdict of the same word; each lemma of it is
/// reached, and it is accepted.
pub fn a_trimmed_text_is_right()
    ensures right { (version : Version) (bytes written : List ℕ) (v : Verdict) (count : ℕ) (trim : IsTrimmedText version bytes written v count)
        → IsRightText version written (trimmed_verdict (lemmas_among trim.text.entries) v) (length (trimmed (lemmas_among trim.text.entries) v)) }
    ensures reached { (version : Version) (bytes written : List ℕ) (v : Verdict) (count : ℕ) (trim : IsTrimmedText version bytes written v count) (l : Lemma)
        → Contains (trimmed (lemmas_among trim.text.entries) v) l
        → IsReached (trimmed (lemmas_among trim.text.entries) v) (trimmed_verdict (lemmas_among trim.text.entries) v) l.number }
{}

/// No legal move betters the value for the side that makes it; so one after which the value is another makes it worse.
pub fn no_move_betters_the_value()
    ensures best { (p : Position) (column : ℕ) → is_legal p column ≡ true → worth (side_to_move p) (value (after_move p column)) ≤ worth (side_to_move p) (value p) }
    ensures worse { (p : Position) (column : ℕ) → is_legal p column ≡ true → value (after_move p column) ≢ value p
        → worth (side_to_move p) (value (after_move p column)) < worth (side_to_move p) (value p) }
{}
