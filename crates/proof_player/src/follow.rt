//! The player: where a game that is followed stands, and the holder's moves.
ghost use Rattle.std.specs.Prelude.{◌≡◌, ◌≢◌, ◌↔◌, ◌<◌, false, length, None, IfOk, IfErr};
ghost use Rattle.game_rules.specs.Position.{end_of, side_to_move};
ghost use Rattle.follow_text.specs.Following.{own_move_at};
ghost use Rattle.proof_player.specs.Playing.{Serves, reply_for, HasBegun, HasFollowed, IsRefused};

use crate::place::{Place, go_on};
use crate::reasons::own_move;
use board_bits::{Column, End, MoveFault, Position, Side};
use proof_book::Book;
use std::marker::Model;

/// The holder's move: the column of its man, and what that man ended.
#[derive(Clone, Copy)]
pub enum FollowReply {
    /// The other side's man filled the board, and no side has a line.
    Over,
    /// The holder made a line.
    Won(Column),
    /// The holder's man filled the board, and no side has a line.
    Filled(Column),
    /// The game goes on, and the other side is to move.
    Move(Column),
}

impl FollowReply {
    /// The reply that a man of the holder's in the column is, by the end of the game after it.
    fn of(holder: Side, ended: Option<End>, column: Column) -> FollowReply
        ensures { result ≡ reply_for holder ended column }
    {
        match ended {
            None => FollowReply::Move(column),
            Some(End::Draw) => FollowReply::Filled(column),
            Some(end) => {
                if end == holder.win() {
                    FollowReply::Won(column)
                } else {
                    FollowReply::Move(column)
                }
            }
        }
    }
}

/// A game in which the holder plays by the lemmas of a book, which are right, from one that serves it. Play stands at a lemma
/// or within the play by a plan, on the board as it lies or turned round.
#[derive(Drop)]
pub struct Follow<'a> {
    book: &'a Book,
    holder: Side,
    now: Position,
    place: Place,
    turned: bool,
}

impl<'a> Model for Follow<'a> {
    ghost use Rattle.follow_text.specs.Following.{own_move_at};
    ghost use Rattle.proof_player.specs.Playing.{FollowState};
    ghost use Rattle.proof_player.specs.FollowFields.{state_of, IsFollowing};

    ghost Value = { FollowState };

    ghost view = { state_of };

    ghost invariant = { IsFollowing };
}

impl<'a> Follow<'a> {
    /// Begins a game at the root: plays the holder's first move, and gives it beside the player. None comes exactly where the
    /// holder isn't to move there or the game has ended. The lemmas of the book are right, and the lemma with this number stands
    /// at a position that is the same as the root, and serves the holder: it claims that the holder wins, or that the other side
    /// doesn't.
    pub fn begin(
        book: &'a Book,
        root: &Position,
        holder: Side,
        lemma: u32,
    ) -> (Follow<'a>, Option<FollowReply>)
        requires { Serves book.now lemma root.now holder }
        ensures value { HasBegun book.now holder root.now lemma result.0 result.1 (own_move_at book.now (length root.now.columns) lemma false) }
        ensures none { (result.1 ≢ None) ↔ ((end_of root.now ≡ None) × (side_to_move root.now ≡ holder)) }
    {
        let Some(step) = own_move(book, root, lemma, false) else {
            let follow = Follow {
                book,
                holder,
                now: *root,
                place: Place::AtLemma(lemma),
                turned: false,
            };
            return (follow, None);
        };
        let now = root.after(step.column);
        let reply = FollowReply::of(holder, now.ended(), step.column);
        let follow = Follow {
            book,
            holder,
            now,
            place: Place::AtLemma(step.lemma),
            turned: step.turned,
        };
        (follow, Some(reply))
    }

    /// The position that the game has come to.
    pub fn now(&self) -> &Position
        ensures { result.now ≡ self.entry.now.now }
    {
        &self.now
    }

    /// Plays the other side's man into the column, and then the holder's answer, where the game goes on.
    ///
    /// `GameOver` comes exactly where the game has ended, else `ColumnFull` exactly where the column, which is on the
    /// board, has as many men as the board has rows. Nothing is changed then.
    pub fn answer(&mut self, c: Column) -> Result<FollowReply, MoveFault>
        requires { c < length self.old.now.columns }
        ensures ok { IfOk result (HasFollowed self.old self.new c) }
        ensures err { IfErr result (IsRefused self.old self.new c) }
    {
        let before = self.now;
        let now = before.play(c)?;
        if now.ended().is_some() {
            self.now = now;
            return Ok(FollowReply::Over);
        }
        let (column, turned) = go_on(self.book, &mut self.place, self.turned, &before, c);
        let last = now.after(column);
        let reply = FollowReply::of(self.holder, last.ended(), column);
        self.now = last;
        self.turned = turned;
        Ok(reply)
    }
}
