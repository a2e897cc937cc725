//! The trait of the nine rules: each call with its meaning, and the laws between the meanings.
ghost use Rattle.std.specs.Prelude.{◌≡◌, Bool, List, Option, is_none, is_some};
ghost use Rattle.game_rules.specs.Board.{Square};
ghost use Rattle.game_rules.specs.Position.{Position};
ghost use Rattle.game_rules.specs.Squares.{has_square, IsSetOf};
ghost use Rattle.game_rules.specs.Groups.{Group};
ghost use Rattle.plan_rules.specs.Rules.{Facts};
ghost use Rattle.plan_rules.specs.Causes.{names_twins, names_no_reply};
ghost use Rattle.plan_rules.specs.Laws.{StartLaw, LocalLaw, StepLaw, BarLaw, FactLaw};
ghost use Rattle.plan_rules.specs.declared.Kind.{Kind};
ghost use Rattle.rule_law.specs.KeptFacts.{facts_in};

use crate::{Kept, Kind};
use board_bits::{Mask, Position, Square};

/// An instance of one of the nine rules by which Black keeps White from a line. The rules are this project's own
/// profile "after Allis".
pub trait Rule {
    /// Which of the nine rules it is an instance of.
    ghost kind: { Self → Kind };

    /// The squares that it owns.
    ghost zone: { Self → List Square };

    /// Where it fits: the meaning of `fits`.
    ghost fitted: { Self → Position → Bool };

    /// Black's answer to White's move, at the position after it.
    ghost reply: { Self → Position → Square → Option Square };

    /// Which sets of squares it promises, given the kept facts, that White never owns whole.
    ghost bars: { Self → Facts → (Square → Bool) → Bool };

    /// Whether the kept facts have what it rests on: the meaning of `is_supported`.
    ghost supported: { Self → Facts → Bool };

    /// The squares that it promises are never White's.
    ghost upper: { Self → List Square };

    /// The squares that it promises White never owns together with the square above.
    ghost pair: { Self → List Square };

    /// The two squares of which it promises that White never owns both.
    ghost twin: { Self → Option (Square × Square) };

    /// In which positions the men of its zone are such that it has an answer to each move of White's there.
    ghost calm: { Self → Position → Bool };

    /// The line that a group rule rests on; None for each other rule.
    ghost line: { Self → Option Group };

    /// Which of the nine rules it is an instance of.
    fn kind(&self) -> Kind
        ensures { result ≡ kind self.now };

    /// The squares that it owns; none for a standing rule.
    fn zone(&self) -> Mask
        ensures { IsSetOf (has_square (zone self.now)) result };

    /// Whether it fits at the position: its shape is one of the board's, its zone is empty, and what its rule asks
    /// besides is there.
    fn fits(&self, p: &Position) -> bool
        ensures { result ≡ fitted self.now p.now };

    /// Black's answer to White's move `last`, at the position after it. None exactly where the rule names no square:
    /// where `last` isn't in the zone, or is a Claimeven's upper square, or is a Lowinverse's top while the other
    /// column is full.
    fn reply(&self, now: &Position, last: Square) -> Option<Square>
        ensures value { result ≡ reply self.now now.now last }
        ensures missing { is_none result ≡ names_no_reply (kind self.now) (zone self.now) now.now last };

    /// Whether it promises, given the kept facts, that White never owns the whole set.
    fn bars(&self, kept: &Kept, set: Mask) -> bool
        ensures { result ≡ bars self.now (facts_in kept.now) (has_square set) };

    /// Whether the kept facts have what it rests on; true for a zone rule, which rests on nothing.
    fn is_supported(&self, kept: &Kept) -> bool
        ensures { result ≡ supported self.now (facts_in kept.now) };

    /// The squares that it puts among the kept upper squares.
    fn upper(&self) -> Mask
        ensures { IsSetOf (has_square (upper self.now)) result };

    /// The squares that it puts among those that White never owns together with the square above.
    fn pair(&self) -> Mask
        ensures { IsSetOf (has_square (pair self.now)) result };

    /// The two squares that it puts among the kept twins; Some exactly where the rule is Baseinverse.
    fn twin(&self) -> Option<(Square, Square)>
        ensures value { result ≡ twin self.now }
        ensures found { is_some result ≡ names_twins (kind self.now) };

    /// Start: an instance that fits is calm, and its line is a line of the position's board.
    ghost starts: { (x : Self) → StartLaw (fitted x) (calm x) (line x) };

    /// Whether it is calm depends on the squares of its zone alone.
    ghost is_local: { (x : Self) → LocalLaw (zone x) (calm x) };

    /// Step: the instance fitted at a position of the same board and is calm, the columns of its zone are filled below
    /// its lowest zone squares, and White plays a playable square of the zone. Then the reply is a square of the zone, it
    /// is playable after White's move, and the instance is calm after both men.
    ghost steps: { (x : Self) → StepLaw (zone x) (fitted x) (calm x) (reply x) };

    /// Bar: the instance fitted where the empty squares were the kept ones, it is supported by the kept facts and calm,
    /// the kept facts are true of the men, and Black's men are still there. Then White owns no barred set whole; for a
    /// rule with a line, where White owns one, the line is all Black's.
    ghost bar: { (x : Self) → BarLaw (fitted x) (supported x) (calm x) (bars x) (line x) };

    /// An instance that fitted and is calm makes its own entries of the kept facts true.
    ghost keeps: { (x : Self) → FactLaw (fitted x) (calm x) (upper x) (pair x) (twin x) };
}
