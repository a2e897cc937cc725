//! A node of the tree, as it lies in a slot of the pool.
ghost use Rattle.std.specs.Prelude.{◌≡◌};
ghost use Rattle.front_rules.specs.Front.{leaf_number, verdict_by_numbers};
ghost use Rattle.proof_front.specs.Numbers.{number_in, leaf_numbers, same_numbers};

use board_bits::Position;
use front_rules::{Count, LeafVerdict};
use node_pool::Slot;

/// A node's two numbers.
#[derive(Clone, Copy, PartialEq, Eq)]
pub(crate) struct Numbers {
    pub proof: Count,
    pub disproof: Count,
}

impl Numbers {
    /// The numbers of a leaf that stands so.
    pub fn of_leaf(verdict: LeafVerdict) -> Numbers
        ensures { result ≡ leaf_numbers verdict }
    {
        Numbers {
            proof: verdict.number(true),
            disproof: verdict.number(false),
        }
    }

    /// The proof number, or the disproof number.
    pub fn number(&self, proof: bool) -> Count
        ensures { result ≡ number_in proof self.now }
    {
        if proof { self.proof } else { self.disproof }
    }

    /// Whether both numbers are the same.
    pub fn same(&self, other: &Numbers) -> bool
        ensures { result ≡ same_numbers self.now other.now }
    {
        self.proof.same(other.proof) && self.disproof.same(other.disproof)
    }

    /// What the numbers settle.
    pub fn verdict(&self) -> LeafVerdict
        ensures { result ≡ verdict_by_numbers self.now.proof self.now.disproof }
    {
        LeafVerdict::of(self.proof, self.disproof)
    }
}

/// A position in the tree, with its first child, the node beside it, and its numbers. A leaf has no child.
#[derive(Clone, Copy)]
pub(crate) struct Node {
    pub position: Position,
    pub first: Option<Slot>,
    pub next: Option<Slot>,
    pub numbers: Numbers,
}
