//! The pairs of an odd threat, each a Baseinverse: which list of them is right, and the other square of one.
ghost use Rattle.std.specs.Prelude.{◌≡◌, ◌≤◌, ◌==◌, ◌&&◌, not, [], length};
ghost use Rattle.std.specs.List.{list_any, find};
ghost use Rattle.game_rules.specs.Board.{below};
ghost use Rattle.game_rules.specs.Position.{height};
ghost use Rattle.plan_rules.specs.Squares.{is_odd};
ghost use Rattle.odd_rules.specs.Threat.{is_in_column, share_column, is_pair, bad_pair, is_unpaired};
ghost use Rattle.odd_rules.specs.Duel.{partner};

use base_rules::Baseinverse;
use board_bits::{Column, Position, Square};
use rule_law::Rule;

/// The first member, counted from 1, that is no pair or shares a column with an earlier one.
pub(crate) fn first_bad(p: &Position, t: Square, pairs: &[Baseinverse]) -> Option<u32>
    requires { length pairs.now ≤ 45 }
    ensures { result ≡ bad_pair p.now t [] 1 pairs.now }
{
    for (index, pair) in pairs.iter().enumerate() {
        if !is_pair(p, t, pair) || shares_column(pair, &pairs[..index]) {
            return Some(index as u32 + 1);
        }
    }
    None
}

/// Whether both squares are directly playable, in two columns other than the target's with an odd number of men each.
fn is_pair(p: &Position, t: Square, pair: &Baseinverse) -> bool
    ensures { result ≡ is_pair p.now t pair.now }
{
    pair.fits(p)
        && !is_in_column(pair, t.column())
        && p.height(pair.s().column()) % 2 == 1
        && p.height(pair.t().column()) % 2 == 1
}

/// Whether one of the two squares stands in the column.
fn is_in_column(pair: &Baseinverse, c: Column) -> bool
    ensures { result ≡ is_in_column c pair.now }
{
    pair.s().column() == c || pair.t().column() == c
}

/// Whether one of the earlier members stands in a column of the pair.
fn shares_column(pair: &Baseinverse, earlier: &[Baseinverse]) -> bool
    ensures { result ≡ list_any (share_column pair.now) earlier.now }
{
    for other in earlier {
        if is_in_column(other, pair.s().column()) || is_in_column(other, pair.t().column()) {
            return true;
        }
    }
    false
}

/// The first column, from the left, with an odd number of men that is in no pair and isn't the target's.
pub(crate) fn first_unpaired(p: &Position, t: Square, pairs: &[Baseinverse]) -> Option<Column>
    ensures { result ≡ find (is_unpaired p.now t pairs.now) (below (length p.now.columns)) }
{
    let size = p.size();
    for index in 0..size.cols() {
        let column = size.nth_column(index);
        if is_unpaired(p, t, pairs, column) {
            return Some(column);
        }
    }
    None
}

/// Whether the column has an odd number of men, is in no pair, and isn't the target's.
fn is_unpaired(p: &Position, t: Square, pairs: &[Baseinverse], c: Column) -> bool
    ensures { result ≡ is_unpaired p.now t pairs.now c }
{
    is_odd_column(p, t, c) && !is_paired(pairs, c)
}

/// Whether the column has an odd number of men and isn't the target's.
pub(crate) fn is_odd_column(p: &Position, t: Square, c: Column) -> bool
    ensures { result ≡ (not (c == t.0) && is_odd (height p.now c)) }
{
    c != t.column() && p.height(c) % 2 == 1
}

/// Whether some pair has a square in the column.
fn is_paired(pairs: &[Baseinverse], c: Column) -> bool
    ensures { result ≡ list_any (is_in_column c) pairs.now }
{
    for pair in pairs {
        if is_in_column(pair, c) {
            return true;
        }
    }
    false
}

/// The other square of the first pair that has this one; None exactly where no pair has it.
pub(crate) fn partner(pairs: &[Baseinverse], last: Square) -> Option<Square>
    ensures { result ≡ partner pairs.now last }
{
    for pair in pairs {
        if last == pair.s() {
            return Some(pair.t());
        }
        if last == pair.t() {
            return Some(pair.s());
        }
    }
    None
}
