//! The front as definitions: a tree of positions for one question, whether a side wins, with two numbers at each node
//! that say how much is left to be shown; which leaf is looked at next; and what becomes of the tree.
//!
//! The definitions stand in `specs/`, with the numbers computed from scratch over the whole tree. That they may be
//! changed along one path in place of that is a law here, and so is that a settled root tells whether the side wins. The
//! method is the proof-number search of Allis. Each function of `laws` is a theorem: its contract is the theorem, and its
//! body is empty.
#![tactic(auto)]

ghost use Rattle.std.specs.Prelude.{◌≡◌, ◌+◌, ◌<◌, ◌^◌};
ghost use Rattle.front_rules.specs.Counts.{plus, least, same_count, is_zero, finite_part};
ghost use Rattle.front_rules.specs.Front.{leaf_number, verdict_by_numbers};

pub mod laws;

/// A number of the front, which may be infinite: how many positions have at least to be settled, by the tree as it is,
/// until it is known that the side wins (the proof number), or that it doesn't (the disproof number).
#[derive(Clone, Copy, Debug, PartialEq, Eq)]
pub enum Count {
    Finite(u32),
    Infinite,
}

impl Count {
    /// The sum, which is infinite where one of the numbers is.
    pub fn plus(self, other: Count) -> Count
        requires { finite_part self + finite_part other < 2 ^ 32 }
        ensures { result ≡ plus self other }
    {
        match (self, other) {
            (Count::Finite(here), Count::Finite(there)) => Count::Finite(here + there),
            _ => Count::Infinite,
        }
    }

    /// The least of the two numbers.
    pub fn least(self, other: Count) -> Count
        ensures { result ≡ least self other }
    {
        match (self, other) {
            (Count::Finite(here), Count::Finite(there)) => {
                if there < here { other } else { self }
            }
            (Count::Finite(_), Count::Infinite) => self,
            (Count::Infinite, _) => other,
        }
    }

    /// Whether the numbers are the same.
    pub fn same(self, other: Count) -> bool
        ensures { result ≡ same_count self other }
    {
        match (self, other) {
            (Count::Finite(here), Count::Finite(there)) => here == there,
            (Count::Infinite, Count::Infinite) => true,
            _ => false,
        }
    }

    /// Whether nothing is left to be shown.
    pub fn is_zero(self) -> bool
        ensures { result ≡ is_zero self }
    {
        match self {
            Count::Finite(number) => number == 0,
            Count::Infinite => false,
        }
    }
}

/// How a leaf of the front stands: it isn't settled, or the side wins there, or it doesn't.
#[derive(Clone, Copy)]
pub enum LeafVerdict {
    Unsettled,
    Yes,
    No,
}

impl LeafVerdict {
    /// What a node's proof number and disproof number settle.
    pub fn of(proof: Count, disproof: Count) -> LeafVerdict
        ensures { result ≡ verdict_by_numbers proof disproof }
    {
        if proof.is_zero() {
            LeafVerdict::Yes
        } else if disproof.is_zero() {
            LeafVerdict::No
        } else {
            LeafVerdict::Unsettled
        }
    }

    /// The proof number of a leaf that stands so, or its disproof number.
    pub fn number(self, proof: bool) -> Count
        ensures { result ≡ leaf_number proof self }
    {
        match (self, proof) {
            (LeafVerdict::Unsettled, _) => Count::Finite(1),
            (LeafVerdict::Yes, true) | (LeafVerdict::No, false) => Count::Finite(0),
            (LeafVerdict::Yes, false) | (LeafVerdict::No, true) => Count::Infinite,
        }
    }
}
