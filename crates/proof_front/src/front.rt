//! The front: a tree in a pool, what it asks, and where its root lies.
ghost use Rattle.std.specs.Prelude.{◌≡◌, ◌≢◌, ℕ, ◌+◌, ◌≤◌, true, false, IfOk};
ghost use Rattle.game_rules.specs.Position.{Position as Men};
ghost use Rattle.game_rules.specs.Questions.{side_asked};
ghost use Rattle.front_rules.specs.Front.{node_count, root_number, planned, grown};
ghost use Rattle.node_pool.specs.declared.pool.TheConstants.{MOST_SLOTS};
ghost use Rattle.proof_front.specs.Fronts.{tree_of, slot_count, IsFrontOf, IsAnswer};
ghost use Rattle.proof_front.specs.declared.front.Grown.TheVariants as grows;

use crate::growing::{Step, grow_in};
use crate::judging::Asked;
use crate::node::Node;
use crate::rows::free_row;
use board_bits::{Position, Question};
use front_rules::{Count, LeafVerdict};
use node_pool::{Pool, Slot};
use rule_chooser::Chooser;
use std::alloc::{AllocError, Global};
use std::marker::Model;

/// What a call of [`Front::grow`] did.
#[derive(Clone, Copy, Debug, PartialEq, Eq)]
pub enum Grown {
    /// Nothing: the root is settled, and this is the answer to the question.
    Settled(bool),
    /// Nothing: fewer slots are free than the most-proving leaf has legal moves.
    Full,
    /// The most-proving leaf was expanded.
    Expanded,
}

/// A tree of positions for the question whether a side wins, which grows by its most-proving leaf.
#[derive(Drop)]
pub struct Front {
    asked: Asked,
    root: Slot,
    pool: Pool<Node>,
}

impl Model for Front {
    ghost use Rattle.proof_front.specs.Fronts.{FrontState, IsFront};

    ghost Value = { FrontState };

    ghost view = { λ f. record { side = f.asked.side; reach = f.asked.reach; slots = f.pool; root = f.root } };

    ghost invariant = { λ f. IsFront f.asked.side f.pool f.root };
}

impl Front {
    /// A front for a position and a question, with so many slots for its nodes, from 1 to 1,000,000, and with plans from
    /// the first `reach` sets of zones. The tree is the position alone. All the memory that the front ever has is taken
    /// here; `AllocError` comes where there isn't so much. The chooser is lent, and asked once for each leaf that is made.
    pub fn new(
        alloc: Global,
        root: &Position,
        question: Question,
        slots: u32,
        reach: u32,
        chooser: &mut Chooser,
    ) -> Result<Front, AllocError>
        requires some { 1 ≤ slots }
        requires few { slots ≤ MOST_SLOTS }
        ensures { IfOk result (λ front. IsFrontOf root.now (side_asked question) reach 0 slots front) }
    {
        let asked = Asked {
            side: question.side(),
            reach,
        };
        let mut pool = Pool::new(alloc, slots)?;
        let root = pool
            .place(asked.leaf(root, root.ended(), None, chooser))
            .unwrap();
        Ok(Front { asked, root, pool })
    }

    /// Drops the tree and begins anew with a position and a question, in the same pool and with the same reach.
    pub fn restart(&mut self, root: &Position, question: Question, chooser: &mut Chooser)
        ensures { IsFrontOf root.now (side_asked question) self.old.reach 0 (slot_count self.old) self.new }
    {
        free_row(&mut self.pool, Some(self.root));
        self.asked.side = question.side();
        self.root = self
            .pool
            .place(self.asked.leaf(root, root.ended(), None, chooser))
            .unwrap();
    }

    /// Expands the most-proving leaf. `Settled` comes exactly where the root is settled, with whether the side wins; else
    /// `Full` exactly where fewer slots are free than that leaf has legal moves. With either, nothing is changed.
    pub fn grow(&mut self, chooser: &mut Chooser) -> Grown
        ensures answer { IsAnswer self.old result }
        ensures same { result ≢ grows.Expanded → self.new ≡ self.old }
        ensures expanded { result ≡ grows.Expanded → tree_of self.new ≡ grown self.old.side (planned self.old.reach) (tree_of self.old) }
        ensures front { result ≡ grows.Expanded → (p : Men) (n : ℕ) → IsFrontOf p self.old.side self.old.reach n (slot_count self.old) self.old
            → IsFrontOf p self.old.side self.old.reach (n + 1) (slot_count self.old) self.new }
    {
        let numbers = self.pool.get(self.root).numbers;
        match numbers.verdict() {
            LeafVerdict::Yes => Grown::Settled(true),
            LeafVerdict::No => Grown::Settled(false),
            LeafVerdict::Unsettled => {
                match grow_in(
                    &mut self.pool,
                    &self.asked,
                    chooser,
                    self.root,
                    true,
                    numbers.proof,
                ) {
                    Step::Full => Grown::Full,
                    Step::Same | Step::Changed => Grown::Expanded,
                }
            }
        }
    }

    /// The root's proof number and its disproof number.
    pub fn numbers(&self) -> (Count, Count)
        ensures { result ≡ (root_number self.now.side true (tree_of self.now), root_number self.now.side false (tree_of self.now)) }
    {
        let numbers = self.pool.get(self.root).numbers;
        (numbers.proof, numbers.disproof)
    }

    /// How many nodes the tree has.
    pub fn live(&self) -> u32
        ensures value { result ≡ node_count (tree_of self.now) }
        ensures within { result ≤ slot_count self.now }
        ensures few { slot_count self.now ≤ MOST_SLOTS }
    {
        self.pool.live()
    }
}
