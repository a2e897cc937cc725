//! Which moves of a game are mistakes, told move by move.
ghost use Rattle.std.specs.Prelude.{◌≡◌, ◌+◌, ◌-◌, ◌≤◌, ℕ, Bool, true, Some, IsSome, IfOk, length, take, drop};
ghost use Rattle.game_rules.specs.Position.{Position as Men, empty_position, played};
ghost use Rattle.tool_text.specs.Marks.{AreMarks, AreLastMarks};
ghost use Rattle.proof_tools.specs.Marked.{IsTold, mark_by};

use arrayvec::ArrayVec;
use board_bits::{Column, End, MOST_SQUARES, Position, Size};
use std::alloc::AllocError;
use tool_text::Mark;

/// Who tells the value of a position.
pub trait Valuer {
    /// What holds of a position whose value was found, and of one where it is wanting.
    ghost holds: { Self → Men → Bool → Type 0 };

    /// The value of the position under perfect play, or None where it is wanting. Where there is no memory for finding it
    /// out, that is the answer. What holds of a position doesn't change.
    fn value_of(&mut self, p: &Position) -> Result<Option<End>, AllocError>
        ensures told { IfOk result (IsTold (holds self.old) p.now) }
        ensures kept { (q : Men) (found : Bool) → holds self.new q found → holds self.old q found };
}

/// The marks of the last `last` moves of a game that begins on the empty board of this size, or of all its moves where
/// there are fewer. The valuer is asked once for each position before or after one of them, and not at all where there
/// is none. `AllocError` comes only from it.
pub fn annotate<V: Valuer>(
    size: Size,
    moves: &[Column],
    last: usize,
    valuer: &mut V,
) -> Result<ArrayVec<Mark, MOST_SQUARES>, AllocError>
    requires legal { IsSome (played (empty_position size) moves.now) }
    requires few { length moves.now ≤ 100 }
    ensures marks { IfOk result (λ marks. AreLastMarks (V.holds valuer.old) size moves.now last marks.items) }
    ensures kept { (q : Men) (found : Bool) → V.holds valuer.new q found → V.holds valuer.old q found }
{
    let (before, marked) = moves.split_at(moves.len().saturating_sub(last));
    marks_from(position_after(size, before), marked, valuer)
}

/// The position after the moves of a game that begins on the empty board of this size.
pub fn position_after(size: Size, moves: &[Column]) -> Position
    requires { IsSome (played (empty_position size) moves.now) }
    ensures { played (empty_position size) moves.now ≡ Some result }
{
    let mut position = Position::empty(size);
    for column in moves {
        position = position.after(*column);
    }
    position
}

/// The marks of moves from a position on.
fn marks_from<V: Valuer>(
    first: Position,
    moves: &[Column],
    valuer: &mut V,
) -> Result<ArrayVec<Mark, MOST_SQUARES>, AllocError>
    requires legal { IsSome (played first moves.now) }
    requires few { length moves.now ≤ 100 }
    ensures marks { IfOk result (λ marks. AreMarks (V.holds valuer.old) first moves.now marks.items) }
    ensures kept { (q : Men) (found : Bool) → V.holds valuer.new q found → V.holds valuer.old q found }
{
    let mut marks = ArrayVec::new();
    if moves.is_empty() {
        return Ok(marks);
    }
    let mut position = first;
    let mut before = valuer.value_of(&position)?;
    for column in moves {
        let next = position.after(*column);
        let after = valuer.value_of(&next)?;
        marks.push(mark_of(before, after));
        position = next;
        before = after;
    }
    Ok(marks)
}

/// The mark of a move, by what is told of the positions before and after it.
fn mark_of(before: Option<End>, after: Option<End>) -> Mark
    ensures { result ≡ mark_by before after }
{
    match (before, after) {
        (Some(before), Some(after)) => {
            if before == after {
                Mark::Fine
            } else {
                Mark::Bad
            }
        }
        _ => Mark::Open,
    }
}
