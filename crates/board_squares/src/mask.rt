//! Sets of squares, each kept as one word: eleven bits for each column, of which the highest stands above every board and
//! is never set. A contract sees the list of the squares in square order, and says of each square whether the set has it.
//! Each answer is found in the word as a whole; only `of` and `squares` go from square to square.
ghost use Rattle.std.specs.Prelude.{◌≡◌, ◌⊎◌, ◌+◌, ◌-◌, ◌*◌, ◌%◌, ◌^◌, ◌<◌, ◌≤◌, ◌&&◌, ◌||◌, ◌==◌, true, false, not, nat_le, length, slice_get, sum_by};
ghost use Rattle.std.specs.List.{list_any, list_all};
ghost use Rattle.game_rules.specs.Board.{on_board, line_at};
ghost use Rattle.game_rules.specs.Squares.{same_square, has_square, widest, IsSetOf};
ghost use Rattle.board_squares.specs.WholeColumns.{in_columns_of};
ghost use Rattle.board_squares.specs.Words.{place_of, squares_of, word_of, board_word};
ghost use Rattle.board_squares.specs.Runs.{has_run};

use crate::line::squares_in;
use crate::run::{has_run, starts};
use crate::{Column, Length, MOST_SQUARES, Size, Square, Way};
use arrayvec::ArrayVec;
use std::marker::Model;

/// The lowest square of each of ten columns.
const LOWEST_SQUARES: u128 = 0x8_0100_2004_0080_1002_0040_0801;

/// The squares of odd rows of ten columns with ten rows.
const ODD_ROWS: u128 = 0xaa9_552a_a554_aa95_52aa_554a_a955;

/// A set of squares.
#[derive(Clone, Copy, Debug, PartialEq, Eq)]
pub struct Mask {
    word: u128,
}

impl Model for Mask {
    ghost use Rattle.std.specs.Prelude.{◌≡◌, List, ℕ};
    ghost use Rattle.std.proofs.Common.{ap};

    ghost Value = { List (ℕ × ℕ) };

    ghost use Rattle.board_squares.specs.Words.{squares_of, word_of};

    ghost view = { λ mask. squares_of mask.word };

    ghost invariant = { λ mask. word_of (squares_of mask.word) ≡ mask.word };

    ghost inverse = { λ us. record { word = word_of us } };

    ghost inverse_ok = { λ a told. ap (λ n. record a { word = n }) told };
}

impl Mask {
    /// The set without squares.
    pub fn empty() -> Mask
        ensures { IsSetOf (λ _. false) result }
    {
        Mask { word: 0 }
    }

    /// The set with this number.
    pub fn of_word(word: u128) -> Mask
        requires { word_of (squares_of word) ≡ word }
        ensures { result ≡ squares_of word }
    {
        Mask { word }
    }

    /// The set of a list's squares.
    pub fn of(squares: &[Square]) -> Mask
        ensures { IsSetOf (has_square squares.now) result }
    {
        let mut mask = Mask::empty();
        for square in squares {
            mask = mask.with(*square);
        }
        mask
    }

    /// The set as a number: the sum of `2^(11 * column + row - 1)` over its squares, columns being counted from 0 and
    /// rows from 1. Sets with one number are the same.
    pub fn bits(&self) -> u128
        ensures value { result ≡ sum_by (λ s. 2 ^ (11 * s.0 + s.1 - 1)) self.now }
        ensures squares { squares_of result ≡ self.now }
        ensures within { result < 2 ^ 110 }
    {
        self.word
    }

    /// Whether the set has the square.
    pub fn has(&self, s: Square) -> bool
        ensures { result ≡ has_square self.now s }
    {
        (self.word >> place_of(s)) & 1 == 1
    }

    /// The set with one more square.
    pub fn with(&self, s: Square) -> Mask
        ensures { IsSetOf (λ u. same_square u s || has_square self.now u) result }
    {
        Mask {
            word: self.word | (1 << place_of(s)),
        }
    }

    /// The set of the squares that either set has.
    pub fn union(&self, other: Mask) -> Mask
        ensures { IsSetOf (λ u. has_square self.now u || has_square other u) result }
    {
        Mask {
            word: self.word | other.word,
        }
    }

    /// The set of the squares that both sets have.
    pub fn intersection(&self, other: Mask) -> Mask
        ensures { IsSetOf (λ u. has_square self.now u && has_square other u) result }
    {
        Mask {
            word: self.word & other.word,
        }
    }

    /// The set of this one's squares that the other doesn't have.
    pub fn without(&self, other: Mask) -> Mask
        ensures { IsSetOf (λ u. has_square self.now u && not (has_square other u)) result }
    {
        Mask {
            word: self.word & !other.word,
        }
    }

    /// The set of the squares directly below this one's: those whose square above is in the set. Below the lowest row
    /// there is none.
    pub fn lowered(&self) -> Mask
        ensures { IsSetOf (λ u. nat_le 1 u.1 && has_square self.now (u.0, u.1 + 1)) result }
    {
        Mask {
            word: (self.word & !LOWEST_SQUARES) >> 1,
        }
    }

    /// The squares of the first square's column from its row up to the second one's row, both counted in; the empty set
    /// where that row is lower. The second square's column doesn't matter.
    pub fn column_part(bottom: Square, top: Square) -> Mask
        ensures { IsSetOf (λ u. (u.0 == bottom.0) && (nat_le bottom.1 u.1 && nat_le u.1 top.1)) result }
    {
        Mask::rows_from(bottom, top.row())
    }

    /// The squares of the square's column from its row up, on the board with ten columns and ten rows.
    pub fn upwards(bottom: Square) -> Mask
        ensures { IsSetOf (λ u. (u.0 == bottom.0) && (nat_le bottom.1 u.1 && nat_le u.1 10)) result }
    {
        Mask::rows_from(bottom, 10)
    }

    /// The squares of a column, on the board with ten columns and ten rows.
    pub fn column(column: Column) -> Mask
        ensures { IsSetOf (λ u. on_board widest u && (column == u.0)) result }
    {
        Mask::upwards(column.lowest())
    }

    /// The squares of the square's column from its row up to this row.
    fn rows_from(bottom: Square, top: u8) -> Mask
        requires { top ≤ 10 }
        ensures { IsSetOf (λ u. (u.0 == bottom.0) && (nat_le bottom.1 u.1 && nat_le u.1 top)) result }
    {
        let rows = ((1u128 << top) - 1) >> (bottom.row() - 1);
        Mask {
            word: rows << place_of(bottom),
        }
    }

    /// All squares of the columns in which the set has some, on the board with ten columns and ten rows. The cost is that of
    /// these columns alone.
    pub fn columns(&self) -> Mask
        ensures { IsSetOf (in_columns_of self.now) result }
    {
        let mut columns = Mask::empty();
        let mut rest = Mask { word: self.word };
        while let Some(square) = rest.first() {
            let column = Mask::column(square.column());
            columns = columns.union(column);
            rest = rest.without(column);
        }
        columns
    }

    /// The squares of odd rows, on the board with ten columns and ten rows.
    pub fn odd_rows() -> Mask
        ensures { IsSetOf (λ u. on_board widest u && ((u.1 % 2) == 1)) result }
    {
        Mask { word: ODD_ROWS }
    }

    /// Whether the set has no square.
    pub fn is_empty(&self) -> bool
        ensures { result ≡ (length self.now == 0) }
    {
        self.word == 0
    }

    /// The first of the set's squares in square order; None exactly where it has none.
    pub fn first(&self) -> Option<Square>
        ensures { result ≡ slice_get self.now 0 }
    {
        if self.word == 0 {
            return None;
        }
        Some(Square::at_place(self.word.trailing_zeros()))
    }

    /// The set's squares in square order: by column, then by row. The cost is that of its squares alone.
    pub fn squares(&self) -> ArrayVec<Square, MOST_SQUARES>
        ensures { result.items ≡ self.now }
    {
        let mut squares = ArrayVec::new();
        let mut rest = self.word;
        while rest != 0 {
            squares.push(Square::at_place(rest.trailing_zeros()));
            rest &= rest - 1;
        }
        squares
    }

    /// Whether the other set has each square of this one.
    pub fn within(&self, other: Mask) -> bool
        ensures { result ≡ list_all (has_square other) self.now }
    {
        self.word & !other.word == 0
    }

    /// Whether the other set has some square of this one.
    pub fn meets(&self, other: Mask) -> bool
        ensures { result ≡ list_any (has_square other) self.now }
    {
        self.word & other.word != 0
    }

    /// Whether the set holds so many squares, four or five, that follow one another in one of the four directions of a
    /// line.
    pub fn run_of(&self, len: u8) -> bool
        requires { (len ≡ 4) ⊎ (len ≡ 5) }
        ensures { result ≡ has_run self.now len }
    {
        has_run(self.word, len)
    }

    /// The squares from which a whole line of this length in this direction lies in the set.
    pub fn line_starts(&self, way: Way, len: Length) -> Mask
        ensures { IsSetOf (λ s. list_all (has_square self.now) (line_at len way s)) result }
    {
        Mask {
            word: starts(self.word, way, squares_in(len)),
        }
    }
}

/// Which bit of a set's number is a square's: below 110, column by column from the left, with a gap above each column.
pub fn place_of(s: Square) -> u32
    ensures value { result ≡ place_of s }
    ensures on { on_board widest s ≡ true }
    ensures within { result < 110 }
{
    11 * u32::from(s.column().index()) + u32::from(s.row()) - 1
}

/// The word of a board's squares: the lowest bits of its columns, moved upwards row by row.
pub fn board_word(size: Size) -> u128
    ensures { result ≡ board_word size }
{
    let column = (1u128 << size.rows()) - 1;
    column * (LOWEST_SQUARES >> (11 * u32::from(10 - size.cols())))
}

/// Sets with the same number are the same set.
pub fn bits_determine_a_mask(a: &Mask, b: &Mask)
    ensures { word_of a.now ≡ word_of b.now → a.now ≡ b.now }
{
    // so the proof sees the numbers of both
    let _a = &a.word;
    let _b = &b.word;
}
