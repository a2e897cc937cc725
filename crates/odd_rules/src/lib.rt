//! The odd threat, as definitions that every crate on it cites, with its laws proved.
//!
//! White has all squares of a line but one, the target, which is empty on an odd row, and Black is to move. White
//! answers each of Black's moves in the same column directly above it, or across a pair of columns; in the end Black
//! has to play below the target, and White takes it. The definitions stand in `specs/`, in squares and sets of squares.
//! Each function of `laws` is a theorem about them: its contract is the theorem, and its body is empty. The threat is
//! this project's own rule, after the idea of zugzwang; it holds for lines of four squares and of five, on boards with
//! an even number of rows, and asks nothing of how the position arose.
#![tactic(auto)]

pub mod laws;
