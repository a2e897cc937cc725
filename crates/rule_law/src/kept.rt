//! The facts that standing rules rest on.
use arrayvec::ArrayVec;
use board_bits::{Mask, Square};

/// No board has room for more pairs of playable squares, each in two columns of its own.
const MOST_TWINS: usize = 5;

/// What the zone rules of a plan promise to its standing rules. The division into these four facts is this project's
/// own profile "after Allis".
#[derive(Drop)]
pub struct Kept {
    /// The squares that are empty at the plan's position.
    pub empty: Mask,
    /// The squares that White never owns: the upper squares of the plan's Claimevens.
    pub upper: Mask,
    /// The squares that White never owns together with the square above: each square of a Lowinverse but its two tops,
    /// and the two middles of a Highinverse.
    pub pair: Mask,
    /// The pairs of squares of which White never owns both: the two squares of each Baseinverse.
    pub twin: ArrayVec<(Square, Square), MOST_TWINS>,
}
