//! A game as a value: the moves that were played from the start of a board, and the position behind them. The two always
//! agree, so what has a game needs neither its text nor a second reading of it.
ghost use Rattle.std.specs.Prelude.{◌≡◌, ◌<◌, ◌≤◌, OnErr, length};
ghost use Rattle.game_rules.specs.Game.{new_game, IsPlayed};
ghost use Rattle.board_bits.specs.Played.{Plays};

use crate::{Column, MOST_SQUARES, MoveFault, Position, Size};
use arrayvec::ArrayVec;
use std::marker::Model;

/// The moves of a game and the position that they lead to.
#[derive(Clone, Drop)]
pub struct Game {
    position: Position,
    moves: ArrayVec<Column, MOST_SQUARES>,
}

impl Model for Game {
    ghost use Rattle.game_rules.specs.Game.{Game as Moves, IsPlayed};

    ghost Value = { Moves };

    ghost view = { λ game. record { position = game.position; moves = game.moves.items } };

    ghost invariant = { λ game. IsPlayed (record { position = game.position; moves = game.moves.items }) };
}

impl Game {
    /// The game on an empty board.
    pub fn new(size: Size) -> Game
        ensures { result ≡ new_game size }
    {
        Game {
            position: Position::empty(size),
            moves: ArrayVec::new(),
        }
    }

    /// Plays a move. The refusals are those of [`Position::play`], and leave the game as it is.
    pub fn play(&mut self, column: Column) -> Result<(), MoveFault>
        requires { column < length self.old.position.columns }
        ensures plays { Plays self.old column self.new result }
        ensures same { OnErr result (self.new ≡ self.old) }
    {
        self.position.has_a_board();
        self.position = self.position.play(column)?;
        self.moves.push(column);
        Ok(())
    }

    /// The position behind the moves.
    pub fn position(&self) -> &Position
        ensures position { result.now ≡ self.now.position }
        ensures played { IsPlayed self.now }
    {
        &self.position
    }

    /// The column of each move, in order.
    pub fn moves(&self) -> &[Column]
        ensures moves { result.now ≡ self.now.moves }
        ensures most { length self.now.moves ≤ MOST_SQUARES }
    {
        &self.moves
    }
}
