//! The positions, squares and groups that the tests speak of.
use board_bits::{Position, Size, Square, read_game};
use open_groups::{GroupId, Way, group_at};
use std::test::Fail;

/// The position after the moves of a game's text.
pub(crate) fn position_of(game: &[u8]) -> Result<Position, Fail> {
    Ok(read_game(game)?)
}

/// The square of the column with this index in this row.
pub(crate) fn square_of(size: Size, index: u8, row: u8) -> Result<Square, Fail> {
    let square = size
        .column(index)
        .and_then(|column| size.square(column, row));
    Ok(square.ok_or("off the board")?)
}

/// The square with this name.
pub(crate) fn named(size: Size, name: &[u8; 2]) -> Result<Square, Fail> {
    square_of(size, name[0].wrapping_sub(b'a'), name[1].wrapping_sub(b'0'))
}

/// The group whose anchor is the square of the column with this index in this row.
pub(crate) fn group_of(size: Size, index: u8, row: u8, way: Way) -> Result<GroupId, Fail> {
    Ok(group_at(size, square_of(size, index, row)?, way).ok_or("no such group")?)
}

/// A rule that is written by its squares.
pub(crate) trait Written {
    /// Whether these are the names of its squares, one behind the other.
    fn is_of(&self, names: &[u8]) -> bool;
}

/// Whether this square has the name of these two letters.
fn is_named(square: Square, column: u8, row: u8) -> bool {
    let letter = square.column().index().wrapping_add(b'a');
    letter == column && square.row().wrapping_add(b'0') == row
}

/// Whether these squares have these names, one behind the other.
pub(crate) fn are_named(squares: &[Square], names: &[u8]) -> bool {
    let mut rest = names;
    for square in squares {
        let [column, row, behind @ ..] = rest else {
            return false;
        };
        if !is_named(*square, *column, *row) {
            return false;
        }
        rest = behind;
    }
    rest.is_empty()
}

/// Whether the rules that were found are those with the squares of these names.
pub(crate) fn are_those<R: Written>(found: &[R], want: &[&[u8]]) -> bool {
    for (rule, names) in found.iter().zip(want.iter()) {
        if !rule.is_of(names) {
            return false;
        }
    }
    found.len() == want.len()
}
