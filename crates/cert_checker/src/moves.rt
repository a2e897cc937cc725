//! The columns that a lemma cites.
ghost use Rattle.std.specs.Prelude.{◌≡◌, ℕ, List, ◌∷◌, false, MatchOption};
ghost use Rattle.std.specs.Str.{bytes_eq};
ghost use Rattle.game_rules.specs.Position.{open_columns};
ghost use Rattle.cert_checker.specs.Checking.{columns_of};

use board_bits::{Column, Position};
use proof_lines::Cite;

/// Whether the columns cited are those that have room, from the left.
pub(crate) fn cites_all(position: &Position, cites: &[Cite]) -> bool
    ensures { result ≡ bytes_eq (columns_of cites.now) (open_columns position.now) }
{
    let size = position.size();
    let mut left = cites;
    for index in 0..size.cols() {
        let column = size.nth_column(index);
        if position.has_room(column) {
            let Some(rest) = behind(left, column) else {
                return false;
            };
            left = rest;
        }
    }
    left.is_empty()
}

/// The cites behind the first one, if that one cites the column.
fn behind(cites: &[Cite], column: Column) -> Option<&[Cite]>
    ensures { MatchOption result
        ((columns : List ℕ) → bytes_eq (columns_of cites.now) (column ∷ columns) ≡ false)
        (λ rest. (columns : List ℕ) → bytes_eq (columns_of cites.now) (column ∷ columns) ≡ bytes_eq (columns_of rest.now) columns) }
{
    match cites {
        [cite, rest @ ..] if cite.column == column => Some(rest),
        _ => None,
    }
}
