//! The path of the last lemma and the positions along it, so that the next lemma only plays the moves that differ.
ghost use Rattle.std.specs.Prelude.{◌≡◌, ◌+◌, ◌<◌, ◌≤◌, true, false, [], ◌∷◌, ◌++◌, Some, None, if◌then◌else◌, length, take};
ghost use Rattle.game_rules.specs.Position.{board_of, after_move, end_of, is_legal, played};

use board_bits::{Column, End, MOST_SQUARES, Position};
use proof_lines::shared_moves;
use std::marker::Model;

/// A position with its end, for which it is looked only once.
#[derive(Clone, Copy)]
pub(crate) struct Reached {
    position: Position,
    ended: Option<End>,
}

impl Model for Reached {
    ghost use Rattle.std.specs.Prelude.{◌≡◌};
    ghost use Rattle.game_rules.specs.Position.{Position, end_of};

    ghost Value = { Position };

    ghost view = { λ a. a.position };

    ghost invariant = { λ a. a.ended ≡ end_of a.position };

    ghost inverse = { λ p. record { position = p; ended = end_of p } };

    ghost use Rattle.cert_checker.specs.Trail.{position_determines_the_end};

    ghost inverse_ok = { position_determines_the_end };
}

impl Reached {
    pub(crate) fn at(position: Position) -> Reached
        ensures { result ≡ position }
    {
        Reached {
            position,
            ended: position.ended(),
        }
    }

    pub(crate) fn position(&self) -> &Position
        ensures { result.now ≡ self.now }
    {
        &self.position
    }

    /// How the game has ended.
    pub(crate) fn ended(&self) -> Option<End>
        ensures { result ≡ end_of self.now }
    {
        self.ended
    }

    /// The position after the move, if it is legal.
    fn after(&self, column: Column) -> Option<Reached>
        ensures { result ≡ (if is_legal self.now column then Some (after_move self.now column) else None) }
    {
        if self.ended.is_none() && self.position.has_room(column) {
            let position = self.position.after(column);
            let ended = position.ended_by(self.position.to_move());
            Some(Reached { position, ended })
        } else {
            None
        }
    }
}

/// A path from a root, and the position after each of its moves, all of them legal at their turn.
#[derive(Drop)]
pub(crate) struct Trail {
    root: Position,
    moves: usize,
    columns: [Column; MOST_SQUARES],
    positions: [Reached; MOST_SQUARES + 1],
}

impl Model for Trail {
    ghost use Rattle.cert_checker.specs.Trail.{Trail};

    ghost Value = { Trail };

    ghost use Rattle.cert_checker.specs.TrailFields.{trail_of, IsTrail};

    ghost view = { trail_of };

    ghost invariant = { IsTrail };
}

impl Trail {
    /// The path with no move.
    pub(crate) fn new(root: Position) -> Trail
        ensures { result ≡ record { root = root; path = [] } }
    {
        Trail {
            root,
            moves: 0,
            columns: [Column::default(); MOST_SQUARES],
            positions: [Reached::at(root); MOST_SQUARES + 1],
        }
    }

    pub(crate) fn root(&self) -> &Position
        ensures { result.now ≡ self.now.root }
    {
        &self.root
    }

    /// The position after the path.
    pub(crate) fn last(&self) -> &Reached
        ensures reached { played self.now.root self.now.path ≡ Some result.now }
        ensures board { board_of result.now ≡ board_of self.now.root }
    {
        &self.positions[self.moves]
    }

    /// Takes this path in place of its own, and answers whether each of its moves is legal at its turn. Where one isn't,
    /// the moves before it are kept.
    #[inline(always)]
    pub(crate) fn follow(&mut self, path: &[Column]) -> bool
        requires { length path.now ≤ MOST_SQUARES }
        ensures root { self.new.root ≡ self.old.root }
        ensures legal { result ≡ true → self.new.path ≡ path.now }
        ensures barred { result ≡ false → played self.old.root path.now ≡ None }
    {
        let shared = self.moves_shared_with(path);
        self.back_to(shared);
        for index in shared..path.len() {
            if !self.push(path[index]) {
                return false;
            }
        }
        true
    }

    /// How many of the first moves of the paths are the same.
    #[inline(always)]
    fn moves_shared_with(&self, path: &[Column]) -> usize
        ensures kept { result ≤ length self.now.path }
        ensures within { result ≤ length path.now }
        ensures same { take result self.now.path ≡ take result path.now }
    {
        let most = self.moves.min(path.len());
        shared_moves(&self.columns[..most], &path[..most])
    }

    /// Takes back the moves behind the first so many.
    fn back_to(&mut self, moves: usize)
        requires { moves ≤ length self.old.path }
        ensures root { self.new.root ≡ self.old.root }
        ensures path { self.new.path ≡ take moves self.old.path }
    {
        self.moves = moves;
    }

    /// Makes one more move, if it is legal, and answers whether it is.
    #[inline(always)]
    fn push(&mut self, column: Column) -> bool
        requires { length self.old.path < MOST_SQUARES }
        ensures root { self.new.root ≡ self.old.root }
        ensures legal { result ≡ true → self.new.path ≡ self.old.path ++ column ∷ [] }
        ensures barred { result ≡ false → played self.old.root (self.old.path ++ column ∷ []) ≡ None }
    {
        let last = &self.positions[self.moves];
        let Some(reached) = last.after(column) else {
            return false;
        };
        self.columns[self.moves] = column;
        self.moves += 1;
        self.positions[self.moves] = reached;
        true
    }
}
