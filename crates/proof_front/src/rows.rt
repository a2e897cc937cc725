//! Rows of nodes in a pool: their numbers, the leaves of a position's moves, and a row that isn't wanted any more.
ghost use Rattle.std.specs.Prelude.{◌≡◌, ◌+◌, ◌<◌, ◌^◌, ◌≤◌, List, None, length, filter};
ghost use Rattle.game_rules.specs.Position.{end_of, has_room};
ghost use Rattle.game_rules.specs.declared.Side.{Side};
ghost use Rattle.front_rules.specs.Counts.{finite_part};
ghost use Rattle.front_rules.specs.Front.{joined, of_none, planned};
ghost use Rattle.node_pool.specs.declared.pool.TheConstants.{MOST_SLOTS};
ghost use Rattle.node_pool.specs.Slots.{live_slots};
ghost use Rattle.proof_front.specs.Numbers.{row_numbers};
ghost use Rattle.proof_front.specs.Cells.{Cell, Owns};
ghost use Rattle.proof_front.specs.Rows.{Placed, row_of, Lies, IsRowAt};
ghost use Rattle.proof_front.specs.Steps.{LeavesLie};
ghost use Rattle.proof_front.specs.declared.node.Node.{Node as Held};

use crate::judging::Asked;
use crate::node::{Node, Numbers};
use board_bits::{Column, Position};
use front_rules::Count;
use node_pool::{Pool, Slot};
use rule_chooser::Chooser;

/// The numbers of a row together, for a node whose children they are: the least of the proof numbers and the sum of the
/// disproof numbers where the side that is asked about is `own` to move there, and else the other way round.
pub(crate) fn numbers_of(pool: &Pool<Node>, at: Option<Slot>, own: bool) -> Numbers
    requires few { length pool.now ≤ MOST_SLOTS }
    requires row { (side : Side) × IsRowAt side pool.now at }
    ensures { (side : Side) (row : Placed) (others : List (Cell Held)) → Lies side pool.now at row others → result ≡ row_numbers side own (row_of row) }
{
    let Some(slot) = at else {
        return Numbers {
            proof: of_none(own),
            disproof: of_none(!own),
        };
    };
    let node = pool.get(slot);
    let beside = numbers_of(pool, node.next, own);
    Numbers {
        proof: joined(own, node.numbers.proof, beside.proof),
        disproof: joined(!own, node.numbers.disproof, beside.disproof),
    }
}

/// The least of two numbers, or their sum.
fn joined(smallest: bool, here: Count, beside: Count) -> Count
    requires { finite_part here + finite_part beside < 2 ^ 32 }
    ensures { result ≡ joined smallest here beside }
{
    if smallest {
        here.least(beside)
    } else {
        here.plus(beside)
    }
}

/// The least of no numbers, or the sum of none.
fn of_none(smallest: bool) -> Count
    ensures { result ≡ of_none smallest }
{
    if smallest {
        Count::Infinite
    } else {
        Count::Finite(0)
    }
}

/// Gives back the slots of a row and of all that is below it.
pub(crate) fn free_row(pool: &mut Pool<Node>, at: Option<Slot>)
    requires row { (side : Side) × IsRowAt side pool.old at }
    ensures freed { (side : Side) (row : Placed) (others : List (Cell Held)) → Lies side pool.old at row others → Owns pool.new others }
    ensures same { length pool.new ≡ length pool.old }
{
    let Some(slot) = at else {
        return;
    };
    let node = pool.get(slot);
    let (first, next) = (node.first, node.next);
    free_row(pool, first);
    free_row(pool, next);
    pool.give_back(slot);
}

/// Places a leaf for each of these columns that has room, side by side, and answers with the first one's slot. The game goes
/// on at the position, so after a move the other side has no line.
pub(crate) fn place_leaves(
    pool: &mut Pool<Node>,
    asked: &Asked,
    chooser: &mut Chooser,
    position: &Position,
    order: &[Column],
) -> Option<Slot>
    requires room { live_slots pool.old + length (filter (has_room position.now) order.now) ≤ length pool.old }
    requires going { end_of position.now ≡ None }
    ensures placed { (others : List (Cell Held)) → Owns pool.old others → LeavesLie position.now asked.now.side (planned asked.now.reach) pool.new order.now result others }
    ensures live { live_slots pool.new ≡ live_slots pool.old + length (filter (has_room position.now) order.now) }
    ensures same { length pool.new ≡ length pool.old }
{
    let [column, rest @ ..] = order else {
        return None;
    };
    let beside = place_leaves(pool, asked, chooser, position, rest);
    if !position.has_room(*column) {
        return beside;
    }
    let next = position.after(*column);
    let ended = next.ended_by(position.to_move());
    pool.place(asked.leaf(&next, ended, beside, chooser))
}
