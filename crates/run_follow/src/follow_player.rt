//! The player who answers the other side's lines by a proof.
ghost use Rattle.std.specs.Prelude.{◌≡◌, ◌≤◌};
ghost use Rattle.run_turns.specs.Turns.{HasRoom, moved_by};
ghost use Rattle.run_follow.specs.Turns.{man_of, turn_of, turns_left};

use board_bits::{Column, MoveFault, Position, Size};
use proof_player::{Follow, FollowReply};
use run_turns::{Player, Turn, TurnEnd};
use std::marker::Model;

/// A game by the lemmas of a book.
#[derive(Drop)]
pub(crate) struct FollowPlayer<'a> {
    follow: Follow<'a>,
}

impl<'a> Model for FollowPlayer<'a> {
    ghost use Rattle.proof_player.specs.Playing.{FollowState};

    ghost Value = { FollowState };

    ghost view = { λ player. player.follow };
}

impl<'a> FollowPlayer<'a> {
    /// A player in this game.
    pub(crate) fn new(follow: Follow<'a>) -> FollowPlayer<'a>
        ensures value { result ≡ follow.entry }
        ensures few { turns_left result ≤ 50 }
    {
        follow.now().has_a_board();
        FollowPlayer { follow }
    }
}

impl<'a> Player for FollowPlayer<'a> {
    ghost use Rattle.run_follow.specs.Turns.{follow_stands, player_turn, turns_left};

    ghost stands = { follow_stands };

    ghost turn = { player_turn };

    ghost left = { turns_left };

    fn size(&self) -> Size {
        self.follow.now().size()
    }

    fn answer(&mut self, column: Column) -> Result<Turn, MoveFault> {
        let before = *self.follow.now();
        let reply = self.follow.answer(column)?;
        Ok(turn_of(&before, Some(column), reply))
    }
}

/// The turn from a position in which the other side's man goes into this column, if it has a man, and the holder replies.
pub(crate) fn turn_of(before: &Position, theirs: Option<Column>, reply: FollowReply) -> Turn
    requires theirs { HasRoom before.now theirs }
    requires mine { HasRoom (moved_by before.now theirs) (man_of reply).0 }
    ensures { result ≡ turn_of before.now theirs reply }
{
    let (mine, end) = man_of(reply);
    Turn::new(before, theirs, mine, end)
}

/// The column of the holder's man, if it has one, and what was ended.
fn man_of(reply: FollowReply) -> (Option<Column>, TurnEnd)
    ensures { result ≡ man_of reply }
{
    match reply {
        FollowReply::Over => (None, TurnEnd::Full),
        FollowReply::Won(column) => (Some(column), TurnEnd::Won),
        FollowReply::Filled(column) => (Some(column), TurnEnd::Full),
        FollowReply::Move(column) => (Some(column), TurnEnd::GoesOn),
    }
}
