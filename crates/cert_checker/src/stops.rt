//! The answers of a checker.
use proof_lines::PlanFault;
use proof_text::Verdict;
use std::alloc::AllocError;

/// Why a line is refused; where its list of instances is no plan, with the first reason for that.
pub type Why = proof_text::Why<PlanFault>;

/// Which line of a text is refused, counted from 1, and why.
#[derive(Clone, Copy, Debug, PartialEq, Eq)]
pub struct Refusal {
    pub at: u64,
    pub why: Why,
}

/// Why a line wasn't added.
#[derive(Clone, Copy, Debug, PartialEq, Eq)]
pub enum AddStop {
    /// The line isn't right where it stands.
    Refused(Refusal),
    /// The line is a lemma that is right, and there is no memory to keep what it shows.
    Memory(AllocError),
}

/// What an accepted text says of its root, and how many lemmas it has.
#[derive(Clone, Copy, Debug, PartialEq, Eq)]
pub struct Accepted {
    pub verdict: Verdict,
    pub lemmas: u32,
}
