//! The ground that both inverses stand on, and where one can begin.
ghost use Rattle.std.specs.Prelude.{◌≡◌, true, filter, if◌then◌else◌};
ghost use Rattle.game_rules.specs.Squares.{is_playable};
ghost use Rattle.plan_rules.specs.Squares.{above, under, is_even};
ghost use Rattle.plan_rules.specs.Rules.{is_grounded};
ghost use Rattle.plan_rules.specs.Listing.{squares_at, is_bottom};

use arrayvec::ArrayVec;
use rule_law::{MOST_COLS, Position, Square, Way};

/// Whether both bottoms could be played, or both squares just below the bottoms.
pub(crate) fn is_grounded(p: &Position, x: Square, y: Square) -> bool
    ensures { result ≡ is_grounded p.now x y }
{
    (p.is_playable(x) && p.is_playable(y)) || (is_playable_under(p, x) && is_playable_under(p, y))
}

/// Whether the square just below could be played.
fn is_playable_under(p: &Position, u: Square) -> bool
    ensures { result ≡ is_playable p.now (under u) }
{
    match p.size().square(u.column(), u.row() - 1) {
        Some(under) => p.is_playable(under),
        None => false,
    }
}

/// The squares where an inverse can begin, in square order: of each column that isn't full its playable square where
/// that is on an even row, else the square above it.
pub(crate) fn bottoms(p: &Position) -> ArrayVec<Square, MOST_COLS>
    ensures { result.items ≡ filter (is_bottom p.now) (squares_at p.now) }
{
    p.has_a_board();
    let playables = p.playables();
    let mut bottoms = ArrayVec::new();
    for playable in playables.as_slice() {
        bottoms.push(bottom_over(p, *playable));
    }
    bottoms
}

/// The one of the column in which this square is playable.
fn bottom_over(p: &Position, playable: Square) -> Square
    requires { is_playable p.now playable ≡ true }
    ensures { result ≡ (if is_even playable.1 then playable else above playable) }
{
    // there is a square above one on an odd row
    p.has_a_board();
    if playable.row() % 2 == 0 {
        playable
    } else {
        playable.step(Way::V, 1)
    }
}

/// Whether both of two bottoms are playable, or neither is, so that both stand just above a playable square.
pub(crate) fn is_common_ground(p: &Position, x: Square, y: Square) -> bool
    requires x { is_bottom p.now x ≡ true }
    requires y { is_bottom p.now y ≡ true }
    ensures { result ≡ is_grounded p.now x y }
{
    p.is_playable(x) == p.is_playable(y)
}
