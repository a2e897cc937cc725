//! Who tells the value of a position by a search.
ghost use Rattle.std.specs.Prelude.{◌≡◌, ◌≤◌};
ghost use Rattle.proof_text.specs.Spelling.{greatest_number};
ghost use Rattle.run_annotate.specs.Dear.{told_end};

use board_bits::{End, Position, Side};
use proof_tools::{Valuer, Verdict};
use run_questions::{Chooser, Table, find_value};
use std::alloc::{AllocError, Global};
use std::marker::Model;

/// How many settled positions the table of each search keeps.
const SEARCH_TABLE: u32 = 100_000;

/// Searches each position within so many nodes and with plans from so many sets of zones. A contract sees the two numbers.
#[derive(Drop)]
pub(crate) struct Searcher {
    alloc: Global,
    nodes: u32,
    reach: u32,
    chooser: Chooser,
}

impl Model for Searcher {
    ghost use Rattle.std.specs.Prelude.{ℕ, ◌≤◌};
    ghost use Rattle.proof_text.specs.Spelling.{greatest_number};

    ghost Value = { ℕ × ℕ };

    ghost view = { λ searcher. (searcher.nodes, searcher.reach) };

    ghost invariant = { λ searcher. searcher.nodes ≤ greatest_number };
}

impl Searcher {
    /// A searcher that hasn't searched yet. No memory is taken.
    pub(crate) fn new(alloc: Global, nodes: u32, reach: u32) -> Searcher
        requires { nodes ≤ greatest_number }
        ensures { result ≡ (nodes, reach) }
    {
        Searcher {
            alloc,
            nodes,
            reach,
            chooser: Chooser::new(),
        }
    }
}

impl Valuer for Searcher {
    ghost use Rattle.run_annotate.specs.Dear.{IsSearched};

    ghost holds = { λ searcher. IsSearched searcher.0 searcher.1 };

    fn value_of(&mut self, p: &Position) -> Result<Option<End>, AllocError> {
        let mut table = Table::new(self.alloc, SEARCH_TABLE)?;
        let verdict = find_value(p, self.nodes, self.reach, &mut table, &mut self.chooser);
        Ok(told_end(p.to_move(), verdict))
    }
}

/// The end of the game that a verdict for the side to move tells, and None where it tells none.
fn told_end(to_move: Side, verdict: Verdict) -> Option<End>
    ensures { result ≡ told_end to_move verdict }
{
    match verdict {
        Verdict::Win(_) => Some(to_move.win()),
        Verdict::Loss(_) => Some(to_move.other().win()),
        Verdict::Draw(..) => Some(End::Draw),
        Verdict::Unknown => None,
    }
}
