//! Sizes of boards with the length of their lines, and their columns and squares. A value of each of these types is one
//! that some board has, so no later code tests a number again.
ghost use Rattle.std.specs.Prelude.{◌≡◌, ◌+◌, ◌<◌, ◌≤◌, ◌++◌, ◌↔◌, true, Some, None, IfSome, if◌then◌else◌, nat_lt, IsTrue};
ghost use Rattle.game_rules.specs.Board.{is_board, is_cols, is_rows, on_board, is_line, line_at, line_length, step_of};
ghost use Rattle.game_rules.specs.Letters.{column_named};
ghost use Rattle.game_rules.specs.Squares.{squares_of_board, squares_in_column, widest, widest_with};
ghost use Rattle.board_squares.specs.Size.{sized};
ghost use Rattle.board_squares.specs.Words.{square_at};
ghost use Rattle.arrayvec.specs.ArrayVec.{array_vec_len};

use crate::line::{MOST_IN_LINE, is_line, squares_in, step_of};
use crate::{Length, Way};
use arrayvec::ArrayVec;
use std::marker::Model;

/// No board has more columns.
pub const MOST_COLS: usize = 10;

/// No board has more squares.
pub const MOST_SQUARES: usize = 100;

/// Why numbers are no size of a board.
#[derive(Clone, Copy, Debug, PartialEq, Eq)]
pub enum SizeFault {
    /// The number of columns isn't from 4 to 10.
    BadCols,
    /// The number of rows isn't 4, 6, 8 or 10.
    BadRows,
    /// The length of a line isn't 4 or 5.
    BadLen,
}

/// The size of a board: 4 to 10 columns, 4, 6, 8 or 10 rows, and lines of 4 or 5 squares. Every size may have either
/// length, also where no line of five fits. Two sizes are equal where all three are.
#[derive(Clone, Copy, Debug, PartialEq, Eq, Hash)]
pub struct Size {
    cols: u8,
    rows: u8,
    len: Length,
}

impl Model for Size {
    ghost use Rattle.std.specs.Prelude.{◌≡◌, true};
    ghost use Rattle.game_rules.specs.Board.{Board, is_board};

    ghost Value = { Board };

    ghost view = { λ size. record { cols = size.cols; rows = size.rows; len = size.len } };

    ghost invariant = { λ size. is_board (record { cols = size.cols; rows = size.rows; len = size.len }) ≡ true };

    ghost inverse = { λ board. record { cols = board.cols; rows = board.rows; len = board.len } };
}

impl Size {
    /// The size with these numbers of columns and rows, and lines of four. `BadCols` comes before `BadRows` where both
    /// are wrong.
    pub fn new(cols: u8, rows: u8) -> Result<Size, SizeFault>
        ensures { result ≡ sized cols rows 4 }
    {
        Size::with_line(cols, rows, 4)
    }

    /// The size with these numbers of columns and rows, and lines of this many squares. `BadCols` comes first where
    /// several are wrong, then `BadRows`, and `BadLen` exactly where `len` alone is.
    pub fn with_line(cols: u8, rows: u8, len: u8) -> Result<Size, SizeFault>
        ensures { result ≡ sized cols rows len }
    {
        if !(4..=10).contains(&cols) {
            return Err(SizeFault::BadCols);
        }
        if rows != 4 && rows != 6 && rows != 8 && rows != 10 {
            return Err(SizeFault::BadRows);
        }
        let len = match len {
            4 => Length::Four,
            5 => Length::Five,
            _ => return Err(SizeFault::BadLen),
        };
        Ok(Size { cols, rows, len })
    }

    /// The size with these numbers, which a board has, and lines of this length.
    pub fn of(cols: u8, rows: u8, len: Length) -> Size
        requires cols { is_cols cols ≡ true }
        requires rows { is_rows rows ≡ true }
        ensures { result ≡ record { cols = cols; rows = rows; len = len } }
    {
        Size { cols, rows, len }
    }

    /// Whether the sizes have as many columns, as many rows, and lines of the same length. `==` answers the same.
    pub fn same(&self, other: &Size) -> bool
        ensures value { IsTrue result ↔ (self.now ≡ other.now) }
        ensures equal { result ≡ ⟦<Size as PartialEq>⟧.eq self.now other.now }
    {
        self == other
    }

    /// A fact of every size: it is one of a board's.
    pub fn is_a_board(&self)
        ensures { is_board self.now ≡ true }
    {
        // each look at a field says that the size is sound
        let _cols = self.cols;
    }

    /// How many columns the board has, from 4 to 10.
    pub fn cols(&self) -> u8
        ensures value { result ≡ self.now.cols }
        ensures board { is_board self.now ≡ true }
        ensures least { 4 ≤ result }
        ensures most { result ≤ 10 }
    {
        self.cols
    }

    /// How many rows the board has: 4, 6, 8 or 10.
    pub fn rows(&self) -> u8
        ensures value { result ≡ self.now.rows }
        ensures board { is_board self.now ≡ true }
        ensures least { 4 ≤ result }
        ensures most { result ≤ 10 }
    {
        self.rows
    }

    /// How many squares a line of the board has: 4 or 5.
    pub fn line(&self) -> u8
        ensures value { result ≡ line_length self.now.len }
        ensures least { 4 ≤ result }
        ensures most { result ≤ 5 }
    {
        squares_in(self.len)
    }

    /// The length of the board's lines.
    pub fn length(&self) -> Length
        ensures { result ≡ self.now.len }
    {
        self.len
    }

    /// The column with this number, counted from 0 at the left; None exactly where the board has no such column.
    pub fn column(&self, index: u8) -> Option<Column>
        ensures { result ≡ (if nat_lt index self.now.cols then Some index else None) }
    {
        if index < self.cols() {
            Some(self.nth_column(index))
        } else {
            None
        }
    }

    /// The column with this letter, `a` for the first from the left; None exactly where the letter is none of the board's
    /// columns.
    pub fn column_named(&self, letter: u8) -> Option<Column>
        ensures value { result ≡ column_named self.now.cols letter }
        ensures within { IfSome result (λ column. column < self.now.cols) }
    {
        self.column(letter.checked_sub(b'a')?)
    }

    /// The column with this number, which the board has.
    pub fn nth_column(&self, index: u8) -> Column
        requires { index < self.now.cols }
        ensures { result ≡ index }
    {
        // its contract says that a board has at most ten columns
        let _within = self.cols();
        Column { index }
    }

    /// Whether the board has the square.
    pub fn has(&self, s: Square) -> bool
        ensures { result ≡ on_board self.now s }
    {
        self.has_at((s.column().index(), s.row()))
    }

    /// Whether the board has a square with this column and row.
    pub(crate) fn has_at(&self, square: (u8, u8)) -> bool
        ensures value { result ≡ on_board self.now square }
        ensures row { IsTrue result → (1 ≤ square.1) × (square.1 ≤ 10) }
    {
        square.0 < self.cols() && 1 <= square.1 && square.1 <= self.rows()
    }

    /// Whether the squares of a line of the board's length from the anchor are all on the board.
    pub fn has_line(&self, anchor: Square, way: Way) -> bool
        ensures value { result ≡ is_line self.now way anchor }
        ensures board { is_board self.now ≡ true }
    {
        self.is_a_board();
        is_line(*self, way, (anchor.column().index(), anchor.row()))
    }

    /// All squares of the board in square order: by column, then by row.
    pub fn squares(&self) -> ArrayVec<Square, MOST_SQUARES>
        ensures items { result.items ≡ squares_of_board self.now }
        ensures board { is_board self.now ≡ true }
    {
        let mut squares = ArrayVec::new();
        for index in 0..self.cols() {
            self.push_column(self.nth_column(index), &mut squares);
        }
        squares
    }

    /// Puts the squares of a column behind the others, from the bottom up.
    fn push_column(&self, column: Column, squares: &mut ArrayVec<Square, MOST_SQUARES>)
        requires { array_vec_len squares.old + self.now.rows ≤ 100 }
        ensures { squares.new.items ≡ squares.old.items ++ squares_in_column self.now.rows column }
    {
        for i in 0..self.rows() {
            squares.push(Square { column, row: i + 1 });
        }
    }

    /// The square of the column in this row, counted from 1 at the bottom; None exactly where it isn't on the board.
    pub fn square(&self, c: Column, row: u8) -> Option<Square>
        ensures { result ≡ (if on_board self.now (c, row) then Some (c, row) else None) }
    {
        if self.has_at((c.index(), row)) {
            Some(Square { column: c, row })
        } else {
            None
        }
    }
}

/// A column, by its number from 0 to 9 from the left. A board has those below its number of columns.
#[derive(Clone, Copy, Debug, PartialEq, Eq)]
pub struct Column {
    index: u8,
}

impl Model for Column {
    ghost use Rattle.std.specs.Prelude.{ℕ, ◌<◌};

    ghost Value = { ℕ };

    ghost view = { λ column. column.index };

    ghost invariant = { λ column. column.index < 10 };

    ghost inverse = { λ n. record { index = n } };
}

impl Default for Column {
    ghost use Rattle.std.specs.Prelude.{◌≡◌};

    ghost is_default = { λ column. column ≡ 0 };

    fn default() -> Self {
        Column { index: 0 }
    }
}

impl Column {
    /// The column's number, from 0 to 9.
    pub fn index(&self) -> u8
        ensures value { result ≡ self.now }
        ensures within { result < 10 }
    {
        self.index
    }

    /// The column's lowest square.
    pub(crate) fn lowest(&self) -> Square
        ensures { result ≡ (self.now, 1) }
    {
        Square {
            column: *self,
            row: 1,
        }
    }
}

/// A square, by its column and its row from 1 to 10 from the bottom.
#[derive(Clone, Copy, Debug, PartialEq, Eq)]
pub struct Square {
    column: Column,
    row: u8,
}

impl Model for Square {
    ghost use Rattle.std.specs.Prelude.{ℕ, ◌≤◌};

    ghost Value = { ℕ × ℕ };

    ghost view = { λ square. (square.column, square.row) };

    ghost invariant = { λ square. (1 ≤ square.row) × (square.row ≤ 10) };

    ghost inverse = { λ s. record { column = s.0; row = s.1 } };
}

impl Default for Square {
    ghost use Rattle.std.specs.Prelude.{◌≡◌};

    ghost is_default = { λ s. s ≡ (0, 1) };

    fn default() -> Self {
        Square {
            column: Column::default(),
            row: 1,
        }
    }
}

impl Square {
    /// The column that the square stands in.
    pub fn column(&self) -> Column
        ensures { result ≡ self.now.0 }
    {
        self.column
    }

    /// The square's row, from 1 to 10.
    pub fn row(&self) -> u8
        ensures value { result ≡ self.now.1 }
        ensures least { 1 ≤ result }
        ensures most { result ≤ 10 }
    {
        self.row
    }

    /// The square with this bit in the number of a set of squares.
    pub(crate) fn at_place(place: u32) -> Square
        requires { on_board widest (square_at place) ≡ true }
        ensures { result ≡ square_at place }
    {
        Square {
            column: Column {
                index: (place / 11) as u8,
            },
            row: (place % 11) as u8 + 1,
        }
    }

    /// The squares of a line of this length from this anchor. They are all on the board with ten columns and ten rows,
    /// so also where they are on any other board.
    pub fn line(&self, len: Length, way: Way) -> ArrayVec<Square, MOST_IN_LINE>
        requires { is_line (widest_with len) way self.now ≡ true }
        ensures { result.items ≡ line_at len way self.now }
    {
        let mut squares = ArrayVec::new();
        for i in 0..squares_in(len) {
            squares.push(self.step(way, i));
        }
        squares
    }

    /// The square that lies so many steps from this one.
    pub fn step(&self, way: Way, i: u8) -> Square
        requires steps { i < 5 }
        requires on_the_board { on_board widest (step_of way self.now i) ≡ true }
        ensures { result ≡ step_of way self.now i }
    {
        let (index, row) = step_of(way, (self.column().index(), self.row()), i);
        Square {
            column: Column { index },
            row,
        }
    }
}
