//! What is done with whole proofs and whole games, as definitions that every crate on it cites, with their laws proved: which
//! lemmas of a proof its verdict rests on, the proof that has these alone, and which moves of a game are mistakes. The
//! definitions stand in `specs/`. Each function of `laws` is a theorem about them: its contract is the theorem, and its
//! body is empty.
#![tactic(auto)]

pub mod laws;

/// What a move does to the value of a game, for the side that makes it.
#[derive(Clone, Copy, Debug, Default, PartialEq, Eq)]
pub enum Mark {
    /// The value stays, written `ok`.
    Fine,
    /// The value is worse for the side that moved, written `bad`.
    Bad,
    /// The value before or after the move isn't known, written `open`.
    #[default]
    Open,
}
