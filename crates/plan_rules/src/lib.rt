//! The nine strategic rules by which Black keeps White from a line, as definitions that every crate on plans cites,
//! with their laws proved. They hold for lines of four squares and of five: a line is one of the board's length.
//!
//! A plan is a list of instances of the nine rules at a position with White to move. Its zone rules share out the
//! empty squares; Black answers each of White's moves inside the zone that owns White's square. The definitions stand
//! in `specs/`, in squares and sets of squares, with no mask and no code in them. Each function of `laws` is a theorem
//! about the definitions: its contract is the theorem, and its body is empty. The rules are this project's own profile
//! "after Allis"; what a board, a move and a line are is the game's.
#![tactic(auto)]

pub mod laws;
pub mod lists;
pub mod plan_laws;

/// No list of members is longer: neither that of a plan nor that of a text.
pub const MOST_MEMBERS: usize = 300;

/// The nine rules. The first five are zone rules, which own squares; the last four are standing rules, which own none
/// and rest on the zone rules of the same plan.
#[derive(Clone, Copy, Debug, PartialEq, Eq)]
pub enum Kind {
    /// A square on an odd row and the square above it.
    Claimeven,
    /// Two playable squares.
    Baseinverse,
    /// An odd number of squares in each of two columns, from an even row up to an even row.
    Lowinverse,
    /// Three squares in each of two columns, from an even row upwards.
    Highinverse,
    /// Three playable squares and the square above one of them.
    Baseclaim,
    /// A square on an even row and the square above it, of which White never owns both.
    Vertical,
    /// A line of Black's whose empty squares are all upper squares of Claimevens.
    Aftereven,
    /// A line of Black's whose empty squares are upper squares, or squares that White never owns with the one above.
    Before,
    /// As Before, with one playable square of the line tied to a playable square elsewhere.
    Specialbefore,
}
