//! Positions and moves. A position is kept as its board's size and the words of both sides' men; a contract sees the
//! men of each column. All lines are looked at for the end of a game, so nothing about the last move has to be kept; where
//! it is known who made it, those of one side suffice.
ghost use Rattle.std.specs.Prelude.{◌≡◌, ◌≢◌, ◌+◌, ◌*◌, ◌<◌, ◌≤◌, true, false, not, filter, length, IsTrue, bit_or};
ghost use Rattle.game_rules.specs.Board.{is_board};
ghost use Rattle.game_rules.specs.Position.{board_of, other, empty_position, height, has_man, side_to_move, has_room, lowest_empty, after_move, has_line, is_full, end_of, IsStacked, same_position};
ghost use Rattle.game_rules.specs.Mirror.{mirror};
ghost use Rattle.game_rules.specs.Squares.{IsSetOf, squares_of_board, is_empty, is_playable};
ghost use Rattle.game_rules.specs.declared.Side.TheVariants as sides;
ghost use Rattle.board_bits.specs.Move.{moved_into};
ghost use Rattle.board_bits.specs.MenWords.{side_word};

use crate::turned::turned;
use crate::{Column, End, MOST_COLS, Mask, Side, Size, Square};
use arrayvec::ArrayVec;
use board_squares::{board_word, has_run, place_of};
use std::hash::Hash;
use std::marker::Model;

/// The bits of the first column.
const COLUMN: u128 = 2047;

/// Why a man can't be dropped into a column.
#[derive(Clone, Copy, Debug, PartialEq, Eq)]
pub enum MoveFault {
    /// The game has ended.
    GameOver,
    /// The column has as many men as the board has rows.
    ColumnFull,
}

/// A position: the board's size, and the men of each column.
#[derive(Clone, Copy, PartialEq, Eq, Hash)]
pub struct Position {
    size: Size,
    white: u128,
    black: u128,
}

impl Model for Position {
    ghost use Rattle.game_rules.specs.Position.{Position as Men};

    ghost Value = { Men };

    ghost use Rattle.board_bits.specs.PositionFields.{men_of, fields_of, IsSound};

    ghost view = { men_of };

    ghost invariant = { IsSound };

    ghost inverse = { fields_of };

    ghost inverse_ok = { λ a sound. sound.fields_back };
}

impl Position {
    /// The position before the first move.
    pub fn empty(size: Size) -> Position
        ensures { result ≡ empty_position size }
    {
        size.is_a_board();
        Position {
            size,
            white: 0,
            black: 0,
        }
    }

    /// A fact of every position: its board is one with a size, and no column is higher than it.
    pub fn has_a_board(&self)
        ensures board { is_board (board_of self.now) ≡ true }
        ensures stacked { IsStacked self.now }
    {
        // each look at a field says that the position is sound
        let _size = self.size;
    }

    /// The board's size.
    pub fn size(&self) -> Size
        ensures value { result ≡ board_of self.now }
        ensures board { is_board (board_of self.now) ≡ true }
        ensures stacked { IsStacked self.now }
    {
        self.size
    }

    /// How many men the column has, at most the board's rows. A column that isn't on the board has none.
    pub fn height(&self, c: Column) -> u8
        ensures value { result ≡ height self.now c }
        ensures most { result ≤ 10 }
    {
        let column = (self.all_men() >> (11 * u32::from(c.index()))) & COLUMN;
        column.count_ones() as u8
    }

    /// White exactly where the number of men is even, ended or not.
    pub fn to_move(&self) -> Side
        ensures { result ≡ side_to_move self.now }
    {
        if self.all_men().count_ones() % 2 == 0 {
            Side::White
        } else {
            Side::Black
        }
    }

    /// Whether the column is on the board and isn't full.
    pub fn has_room(&self, c: Column) -> bool
        ensures { result ≡ has_room self.now c }
    {
        c.index() < self.size().cols() && self.height(c) < self.size().rows()
    }

    /// The lowest empty square of the column, and None exactly where the column is full. A column that isn't on the
    /// board counts as full. The end of the game doesn't matter.
    pub fn playable(&self, c: Column) -> Option<Square>
        ensures { result ≡ lowest_empty self.now c }
    {
        if self.has_room(c) {
            self.size().square(c, self.height(c) + 1)
        } else {
            None
        }
    }

    /// The playable squares, column by column from the left: the lowest empty one of each column that isn't full. The
    /// end of the game doesn't matter.
    pub fn playables(&self) -> ArrayVec<Square, MOST_COLS>
        ensures { result.items ≡ filter (is_playable self.now) (squares_of_board (board_of self.now)) }
    {
        let size = self.size();
        let mut squares = ArrayVec::new();
        for index in 0..size.cols() {
            if let Some(square) = self.playable(size.nth_column(index)) {
                squares.push(square);
            }
        }
        squares
    }

    /// The squares with a man of the side's.
    pub fn men(&self, side: Side) -> Mask
        ensures { IsSetOf (has_man self.now side) result }
    {
        Mask::of_word(self.word(side))
    }

    /// The squares with a man of White's.
    pub fn white(&self) -> Mask
        ensures { IsSetOf (has_man self.now sides.White) result }
    {
        self.men(Side::White)
    }

    /// The squares with a man of Black's.
    pub fn black(&self) -> Mask
        ensures { IsSetOf (has_man self.now sides.Black) result }
    {
        self.men(Side::Black)
    }

    /// The squares of the board without a man.
    pub fn empties(&self) -> Mask
        ensures { IsSetOf (is_empty self.now) result }
    {
        Mask::of_word(board_word(self.size()) & !self.all_men())
    }

    /// Whether the square is on the board and has no man.
    pub fn is_empty(&self, s: Square) -> bool
        ensures { result ≡ is_empty self.now s }
    {
        self.size().has(s) && (self.all_men() >> place_of(s)) & 1 == 0
    }

    /// Whether a man could be dropped onto the square: it is on the board and empty, and every square below it is
    /// filled. The end of the game doesn't matter.
    pub fn is_playable(&self, s: Square) -> bool
        ensures { result ≡ is_playable self.now s }
    {
        self.size().has(s) && s.row() == self.height(s.column()) + 1
    }

    /// Whether a man of the side stands on the square.
    pub fn has_man(&self, side: Side, s: Square) -> bool
        ensures { result ≡ has_man self.now side s }
    {
        (self.word(side) >> place_of(s)) & 1 == 1
    }

    /// Whether the boards are of one size and their lines of one length, and White's men and Black's stand on the same
    /// squares. `==` answers the same, and positions that are the same have one hash.
    pub fn same(&self, other: &Position) -> bool
        ensures value { result ≡ same_position self.now other.now }
        ensures equal { result ≡ ⟦<Position as PartialEq>⟧.eq self.now other.now }
        ensures hash { IsTrue result → ⟦<Position as Hash>⟧.hash_input self.now ≡ ⟦<Position as Hash>⟧.hash_input other.now }
    {
        // their contracts say that no column is higher than its board
        let _own = self.all_men();
        let _others = other.all_men();
        self == other
    }

    /// The position after a man of the side to move was dropped into the column, which has room.
    pub fn after(&self, c: Column) -> Position
        requires { has_room self.now c ≡ true }
        ensures { result ≡ after_move self.now c }
    {
        let man = 1 << (11 * u32::from(c.index()) + u32::from(self.height(c)));
        let (white, black) = match self.to_move() {
            Side::White => (self.white | man, self.black),
            Side::Black => (self.white, self.black | man),
        };
        Position {
            size: self.size,
            white,
            black,
        }
    }

    /// The position seen from the other side of the board: each man stands in its row, in the column as far from the
    /// other side. Its board is the same, and so is its value under perfect play.
    pub fn mirror(&self) -> Position
        ensures { result ≡ mirror self.now }
    {
        let cols = self.size.cols();
        Position {
            size: self.size,
            white: turned(self.white, cols),
            black: turned(self.black, cols),
        }
    }

    /// The position after a move. `GameOver` comes exactly where the game has ended, else `ColumnFull` exactly where
    /// the column, which is on the board, has as many men as the board has rows.
    pub fn play(&self, c: Column) -> Result<Position, MoveFault>
        requires { c < length self.now.columns }
        ensures { result ≡ moved_into self.now c }
    {
        if self.ended().is_some() {
            return Err(MoveFault::GameOver);
        }
        if !self.has_room(c) {
            return Err(MoveFault::ColumnFull);
        }
        Ok(self.after(c))
    }

    /// How the game has ended: Some exactly where a side has a line of the board's length, or the board is full.
    pub fn ended(&self) -> Option<End>
        ensures { result ≡ end_of self.now }
    {
        if self.has_line(Side::White) {
            return Some(End::White);
        }
        self.ended_by(Side::Black)
    }

    /// As `ended`, where the other side has no line, as after a move of this side's: its own is looked for alone.
    pub fn ended_by(&self, side: Side) -> Option<End>
        requires { has_line self.now (other side) ≡ false }
        ensures { result ≡ end_of self.now }
    {
        if self.has_line(side) {
            return Some(side.win());
        }
        if self.is_full() {
            Some(End::Draw)
        } else {
            None
        }
    }

    fn is_full(&self) -> bool
        ensures { result ≡ is_full self.now }
    {
        self.all_men().count_ones() == u32::from(self.size().cols()) * u32::from(self.size().rows())
    }

    fn has_line(&self, side: Side) -> bool
        ensures { result ≡ has_line self.now side }
    {
        has_run(self.word(side), self.size().line())
    }

    /// The word of a side's men.
    pub(crate) fn word(&self, side: Side) -> u128
        ensures value { result ≡ side_word self.now side }
        ensures board { is_board (board_of self.now) ≡ true }
        ensures stacked { IsStacked self.now }
    {
        match side {
            Side::White => self.white,
            Side::Black => self.black,
        }
    }

    /// The word of all men.
    fn all_men(&self) -> u128
        ensures value { result ≡ bit_or (side_word self.now sides.White) (side_word self.now sides.Black) }
        ensures board { is_board (board_of self.now) ≡ true }
        ensures stacked { IsStacked self.now }
    {
        self.white | self.black
    }
}
