//! An odd threat: a group and a list of pairs by which White wins, and the position at which they were found to be one.
ghost use Rattle.std.specs.Prelude.{◌≡◌, ◌≤◌, true, length};
ghost use Rattle.game_rules.specs.Position.{after_move};
ghost use Rattle.game_rules.specs.Squares.{is_playable};
ghost use Rattle.odd_rules.specs.Threat.{is_threat};
ghost use Rattle.odd_rules.specs.Duel.{answer_of};
ghost use Rattle.threat_rules.specs.Threatened.{IsReached, HasMoved};
ghost use Rattle.threat_rules.specs.declared.threat.TheConstants.{MOST_PAIRS};

use crate::pairs::partner;
use arrayvec::ArrayVec;
use base_rules::Baseinverse;
use board_bits::{Position, Square};
use open_groups::GroupId;
use std::marker::Model;

/// No board has more pairs of columns, so no list of pairs that is tried need be longer.
pub const MOST_PAIRS: usize = 45;

/// An odd threat of White's at a position. Every value of the type is one: it is only made of a group and a list of
/// pairs that passed each test.
#[derive(Drop)]
pub struct Threat {
    at: Position,
    group: GroupId,
    pairs: ArrayVec<Baseinverse, MOST_PAIRS>,
}

impl Model for Threat {
    ghost use Rattle.std.specs.Prelude.{◌≡◌, true};
    ghost use Rattle.odd_rules.specs.Threat.{is_threat};
    ghost use Rattle.threat_rules.specs.Threatened.{Threatened};

    ghost Value = { Threatened };

    ghost view = { λ threat. record { at = threat.at; group = threat.group; pairs = threat.pairs.items } };

    ghost invariant = { λ threat. is_threat threat.at threat.group threat.pairs.items ≡ true };
}

impl Threat {
    /// The threat that a group and a list of pairs are at a position.
    pub(crate) fn of(p: &Position, group: GroupId, pairs: &[Baseinverse]) -> Threat
        requires few { length pairs.now ≤ MOST_PAIRS }
        requires threat { is_threat p.now group pairs.now ≡ true }
        ensures { result ≡ record { at = p.now; group = group; pairs = pairs.now } }
    {
        let mut copy = ArrayVec::new();
        copy.try_extend_from_slice(pairs).unwrap();
        Threat {
            at: *p,
            group,
            pairs: copy,
        }
    }

    /// The position at which the group is a threat. Play by the threat starts there.
    pub fn at(&self) -> &Position
        ensures value { result.now ≡ self.now.at }
        ensures threat { is_threat self.now.at self.now.group self.now.pairs ≡ true }
        ensures start { IsReached self.now self.now.at }
    {
        &self.at
    }

    /// The group that lacks one square of being White's line.
    pub fn group(&self) -> GroupId
        ensures { result ≡ self.now.group }
    {
        self.group
    }

    /// The pairs, in the order in which they were given; at most `MOST_PAIRS`.
    pub fn pairs(&self) -> &[Baseinverse]
        ensures value { result.now ≡ self.now.pairs }
        ensures few { length self.now.pairs ≤ MOST_PAIRS }
    {
        self.pairs.as_slice()
    }

    /// White's answer to Black's move to the square `last`, at the position `now` after it: the other square of the
    /// pair that has the square, or where none has it the square directly above. Black's move has to be a legal one,
    /// made at the threat's position or after some turns, each of a legal move of Black's and the threat's answer to
    /// it. Then the answer is always a playable square, and after it White has a line, or Black's next move can be
    /// answered in the same way.
    pub fn reply(&self, now: &Position, last: Square) -> Square
        requires { HasMoved self.now now.now last }
        ensures reply { result ≡ answer_of self.now.pairs last }
        ensures playable { is_playable now.now result ≡ true }
        ensures next { IsReached self.now (after_move now.now result.0) }
    {
        self.at.has_a_board();
        match partner(self.pairs.as_slice(), last) {
            Some(square) => square,
            None => now.playable(last.column()).unwrap(),
        }
    }
}
