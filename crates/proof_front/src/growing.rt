//! An expansion: down one path to the most-proving leaf, and back up by it.
ghost use Rattle.std.specs.Prelude.{◌≡◌, ◌≢◌, Bool, List, ◌∷◌, length, filter, nat_lt, Some, None, ◌≤◌};
ghost use Rattle.game_rules.specs.Position.{has_room};
ghost use Rattle.game_rules.specs.declared.Side.{Side};
ghost use Rattle.node_pool.specs.declared.pool.TheConstants.{MOST_SLOTS};
ghost use Rattle.node_pool.specs.Slots.{free_slots};
ghost use Rattle.proof_front.specs.Cells.{Cell, Owns};
ghost use Rattle.proof_front.specs.Rows.{Placed, Lies, IsRowAt};
ghost use Rattle.proof_front.specs.Steps.{LiesBelow, IsBelow, IsRenewed, IsGoingLeaf, IsExpanded, IsAsked, IsGrown};
ghost use Rattle.proof_front.specs.declared.node.Node.{Node as Held};
ghost use Rattle.front_rules.specs.declared.LeafVerdict.TheVariants as verdicts;
ghost use Rattle.proof_front.specs.declared.growing.Step.TheVariants as steps;

use crate::judging::Asked;
use crate::node::Node;
use crate::rows::{free_row, numbers_of, place_leaves};
use board_bits::{Column, MOST_COLS, Position, Side, centre_out};
use front_rules::{Count, LeafVerdict};
use node_pool::{Pool, Slot};
use rule_chooser::Chooser;

/// What became of a node at an expansion below it.
#[derive(Clone, Copy)]
pub(crate) enum Step {
    /// There are fewer free slots than the leaf has moves: nothing was changed.
    Full,
    /// Both of its numbers are as before.
    Same,
    /// It has other numbers.
    Changed,
}

/// Expands the most-proving leaf below the first node, from `at` on along a row, whose number is the row's least, and renews
/// the nodes of the path; what is said of the answer is of that node.
pub(crate) fn grow_in(
    pool: &mut Pool<Node>,
    asked: &Asked,
    chooser: &mut Chooser,
    at: Slot,
    proof: bool,
    least: Count,
) -> Step
    requires few { length pool.old ≤ MOST_SLOTS }
    requires row { IsAsked asked.now.side pool.old at proof least }
    ensures row { (row : Placed) (others : List (Cell Held)) → Lies asked.now.side pool.old (Some at) row others
        → IsGrown asked.now.side asked.now.reach pool.old pool.new at proof least row others result }
    ensures kept { result ≡ steps.Full → pool.new ≡ pool.old }
    ensures same { length pool.new ≡ length pool.old }
{
    let node = pool.get(at);
    if !node.numbers.number(proof).same(least) {
        let next = node.next.unwrap();
        return grow_in(pool, asked, chooser, next, proof, least);
    }
    let Some(first) = node.first else {
        return expand(pool, asked, chooser, at);
    };
    let own = asked.side == node.position.to_move();
    let below = node.numbers.number(own);
    match grow_in(pool, asked, chooser, first, own, below) {
        Step::Changed => renew(pool, asked.side, at, Some(first)),
        step => step,
    }
}

/// Gives a leaf its moves as children, where there is room for all of them.
fn expand(pool: &mut Pool<Node>, asked: &Asked, chooser: &mut Chooser, at: Slot) -> Step
    requires few { length pool.old ≤ MOST_SLOTS }
    requires leaf { IsGoingLeaf pool.old at }
    ensures leaf { (node : Held) (others : List (Cell Held)) → Owns pool.old ((at, node) ∷ others)
        → IsExpanded asked.now.side asked.now.reach pool.old pool.new at node others result }
    ensures kept { result ≡ steps.Full → pool.new ≡ pool.old }
    ensures same { length pool.new ≡ length pool.old }
{
    let position = pool.get(at).position;
    let order = centre_out(position.size());
    let columns = order.as_slice();
    if is_short(pool, &position, columns) {
        return Step::Full;
    }
    let first = place_leaves(pool, asked, chooser, &position, columns);
    renew(pool, asked.side, at, first)
}

/// Whether fewer slots are free than there are columns with room among these.
fn is_short(pool: &Pool<Node>, position: &Position, order: &[Column]) -> bool
    requires { length order.now ≤ 10 }
    ensures { result ≡ nat_lt (free_slots pool.now) (length (filter (has_room position.now) order.now)) }
{
    let room = pool.room() as usize;
    room < MOST_COLS && room < open_columns(position, order)
}

/// How many of the columns have room.
fn open_columns(position: &Position, order: &[Column]) -> usize
    ensures { result ≡ length (filter (has_room position.now) order.now) }
{
    let mut open = 0;
    for column in order {
        if position.has_room(*column) {
            open += 1;
        }
    }
    open
}

/// Looks at the numbers of a node again, whose children lie from `first` on: it has no children any more where it is settled.
fn renew(pool: &mut Pool<Node>, side: Side, at: Slot, first: Option<Slot>) -> Step
    requires few { length pool.old ≤ MOST_SLOTS }
    requires below { IsBelow side pool.old at first }
    ensures done { result ≢ steps.Full }
    ensures renewed { (node : Held) (kids : Placed) (others : List (Cell Held)) → LiesBelow side pool.old at first node kids others
        → IsRenewed side pool.new at node kids others result }
    ensures same { length pool.new ≡ length pool.old }
{
    let node = pool.get(at);
    let position = node.position;
    let next = node.next;
    let before = node.numbers;
    // a slot that is passed on isn't used again, so the children are named twice
    let children = first;
    let numbers = numbers_of(pool, children, side == position.to_move());
    let verdict = numbers.verdict();
    let kept = kept_below(pool, verdict, first);
    let node = Node {
        position,
        first: kept,
        next,
        numbers,
    };
    pool.set(at, node);
    if numbers.same(&before) {
        Step::Same
    } else {
        Step::Changed
    }
}

/// The first child that a node keeps which stands so: none where it is settled, and the slots of all below it are free then.
fn kept_below(pool: &mut Pool<Node>, verdict: LeafVerdict, first: Option<Slot>) -> Option<Slot>
    requires row { (side : Side) × IsRowAt side pool.old first }
    ensures kept { verdict ≡ verdicts.Unsettled → (pool.new ≡ pool.old) × (result ≡ first) }
    ensures none { verdict ≢ verdicts.Unsettled → result ≡ None }
    ensures freed { verdict ≢ verdicts.Unsettled → (side : Side) (row : Placed) (others : List (Cell Held)) → Lies side pool.old first row others → Owns pool.new others }
    ensures same { length pool.new ≡ length pool.old }
{
    match verdict {
        LeafVerdict::Unsettled => first,
        LeafVerdict::Yes | LeafVerdict::No => {
            free_row(pool, first);
            None
        }
    }
}
