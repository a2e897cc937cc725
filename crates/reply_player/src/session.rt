//! A session of play by a plan. Moves are the game's; what Black answers is the plan's, and every plan keeps White from a
//! line, so that White's move never ends the game.
ghost use Rattle.std.specs.Prelude.{◌≡◌, ℕ, ◌<◌, List, [], length, IfOk, IfErr};
ghost use Rattle.game_rules.specs.Position.{end_of};
ghost use Rattle.reply_player.specs.Playing.{reply_for, EndsDuel, HasAnswered, IsRefused};

use board_bits::{Column, End, MoveFault, Position, Square};
use rule_compat::Plan;
use std::marker::Model;

/// Black's answer to a move of White's: the column of Black's man, and whether that man ended the game.
#[derive(Clone, Copy)]
pub enum Reply {
    /// Black made a line.
    BlackWon(Column),
    /// The board is full, and no side has a line.
    Filled(Column),
    /// The game goes on, and White is to move.
    Move(Column),
}

impl Reply {
    /// The reply that a man in the column is, by the end of the game after it. White has no line after a man of Black's.
    fn of(ended: Option<End>, column: Column) -> Reply
        ensures { result ≡ reply_for ended column }
    {
        match ended {
            Some(End::Black) => Reply::BlackWon(column),
            Some(End::Draw) => Reply::Filled(column),
            Some(End::White) | None => Reply::Move(column),
        }
    }
}

/// A game played by a plan: the plan, and the position that the game has come to, from the plan's own by moves of
/// White's with the plan's answers. White is to move there, or the game has ended.
#[derive(Drop)]
pub struct Session {
    plan: Plan,
    stands: Position,
}

impl Model for Session {
    ghost use Rattle.reply_player.specs.Playing.{Playing, IsUnderWay};

    ghost Value = { Playing };

    ghost view = { λ session. record { plan = session.plan; stands = session.stands } };

    ghost invariant = { λ session. IsUnderWay session.plan session.stands };
}

impl Session {
    /// A session that begins at the plan's position.
    pub fn new(plan: Plan) -> Session
        ensures value { result ≡ record { plan = plan; stands = plan.at } }
        ensures start { EndsDuel plan [] plan.at }
    {
        let stands = *plan.at();
        Session { plan, stands }
    }

    /// Plays White's man into the column, and then the plan's answer, which there always is: White's move ends no game.
    ///
    /// `GameOver` comes exactly where the game has ended, else `ColumnFull` exactly where the column, which is on the
    /// board, has as many men as the board has rows. Nothing is changed then.
    pub fn answer(&mut self, c: Column) -> Result<Reply, MoveFault>
        requires { c < length self.old.stands.columns }
        ensures ok { IfOk result (HasAnswered self.old self.new c) }
        ensures err { IfErr result (IsRefused self.old self.new c) }
    {
        let now = self.stands.play(c)?;
        let last = self.stands.playable(c).unwrap();
        let reply = self.plan.reply(&now, last).column();
        self.stands = now.after(reply);
        Ok(Reply::of(self.stands.ended(), reply))
    }

    /// The position that the game has come to.
    pub fn now(&self) -> &Position
        ensures value { result.now ≡ self.now.stands }
        ensures reached { (columns : List ℕ) × EndsDuel self.now.plan columns self.now.stands }
    {
        &self.stands
    }
}
