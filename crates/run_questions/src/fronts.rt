//! The front that `prove` grows before a question, and the remark that says how far it grew. A front is expanded as often
//! as it has slots at most, so that it ends also where its tree stays small.
ghost use Rattle.std.specs.Prelude.{◌≡◌, ℕ, ◌+◌, ◌≤◌, ◌++◌, decimal, length, is_ok, true, IfOk, IfSome};
ghost use Rattle.arrayvec.specs.ArrayVec.{array_vec_len};
ghost use Rattle.device_rules.specs.Devices.{HasCause};
ghost use Rattle.game_rules.specs.Position.{Position as Men};
ghost use Rattle.game_rules.specs.declared.Side.{Side};
ghost use Rattle.game_rules.specs.declared.Side.TheVariants as sides;
ghost use Rattle.proof_front.specs.Fronts.{slot_count, IsFrontOf};
ghost use Rattle.proof_text.specs.Spelling.{as_line, is_remark};
ghost use Rattle.text_words.specs.Lines.{line_room};
ghost use Rattle.run_questions.specs.Remarks.{side_word, count_word, remark_of, IsRemarkWord, EndsAfter};
ghost use Rattle.run_questions.specs.SizedFronts.{AreSlots, slots_of, IsAfter, IsAfterSome, LeavesRemark};

use board_bits::{Position, Question, Side};
use io_ports::{Failed, Sink, put_all};
use proof_front::{Chooser, Count, Front, Grown};
use std::alloc::{AllocError, Global};
use text_words::{LineText, push_number, push_text};

/// A front with its number of slots, from 1 to 1,000,000, which is also how often it may be expanded for a question.
#[derive(Drop)]
pub struct SizedFront {
    front: Front,
    slots: u32,
}

/// A front for the position and the question whether White wins, where a number of slots is given. `AllocError` where there is
/// no memory for it.
pub fn front_for(
    alloc: Global,
    position: &Position,
    slots: Option<u32>,
    reach: u32,
    chooser: &mut Chooser,
) -> Result<Option<SizedFront>, AllocError>
    requires { IfSome slots AreSlots }
    ensures slots { IfOk result (λ sized. slots_of sized ≡ slots) }
    ensures front { IfOk result (λ sized. IsAfter position.now sides.White reach 0 sized) }
{
    let Some(slots) = slots else {
        return Ok(None);
    };
    let front = Front::new(alloc, position, Question::WhiteWins, slots, reach, chooser)?;
    Ok(Some(SizedFront { front, slots }))
}

/// Begins a front anew, for the question whether Black wins.
pub(crate) fn turn_to_black(
    sized: &mut Option<SizedFront>,
    position: &Position,
    chooser: &mut Chooser,
)
    ensures slots { slots_of sized.new ≡ slots_of sized.old }
    ensures front { (side : Side) (reach : ℕ) → IsAfterSome position.now side reach sized.old → IsAfter position.now sides.Black reach 0 sized.new }
{
    let Some(sized) = sized else {
        return;
    };
    sized.restart(position, chooser);
}

/// Grows a front that wasn't expanded yet to its end, where there is one, and writes the remark of its question: the side,
/// how often it was expanded, and the proof number and the disproof number of its root. On `Failed`, which comes only where
/// the sink's count of faults rose, a prefix of the remark was written.
pub(crate) fn write_remark<O: Sink>(
    sized: &mut Option<SizedFront>,
    side: Side,
    chooser: &mut Chooser,
    out: &mut O,
) -> Result<(), Failed>
    ensures remarks { (root : Men) (reach : ℕ) → IsAfter root side reach 0 sized.old → LeavesRemark (slots_of sized.old) reach root side (is_ok result) (O.written out.old) (O.written out.new) }
    ensures slots { slots_of sized.new ≡ slots_of sized.old }
    ensures front { (root : Men) (reach : ℕ) → IsAfter root side reach 0 sized.old → IsAfterSome root side reach sized.new }
    ensures cause { HasCause (O.faults out.old) (O.faults out.new) result }
{
    let Some(sized) = sized else {
        return Ok(());
    };
    let expansions = sized.grow(chooser);
    let (proof, disproof) = sized.front.numbers();
    put_all(
        out,
        remark_line(side, expansions, proof, disproof).as_slice(),
    )
}

impl SizedFront {
    /// Begins anew with the position alone, for the question whether Black wins.
    fn restart(&mut self, position: &Position, chooser: &mut Chooser)
        ensures slots { self.new.slots ≡ self.old.slots }
        ensures front { IsFrontOf position.now sides.Black self.old.front.reach 0 (slot_count self.old.front) self.new.front }
    {
        self.front.restart(position, Question::BlackWins, chooser);
    }

    /// Expands a front that wasn't expanded yet until its root is settled, or it is full, or it was expanded as often as it
    /// has slots. Answers how often it was expanded.
    fn grow(&mut self, chooser: &mut Chooser) -> u32
        ensures end { (root : Men) (side : Side) (reach : ℕ) → IsFrontOf root side reach 0 self.old.slots self.old.front → EndsAfter root side reach self.old.slots result }
        ensures front { (root : Men) (side : Side) (reach : ℕ) → IsFrontOf root side reach 0 self.old.slots self.old.front → IsFrontOf root side reach result self.old.slots self.new.front }
        ensures slots { self.new.slots ≡ self.old.slots }
    {
        for expansions in 0..self.slots {
            let Grown::Expanded = self.front.grow(chooser) else {
                return expansions;
            };
        }
        self.slots
    }
}

/// The line of a remark, with its line feed.
fn remark_line(side: Side, expansions: u32, proof: Count, disproof: Count) -> LineText
    ensures line { result.items ≡ as_line (remark_of side expansions proof disproof) }
    ensures remark { is_remark (remark_of side expansions proof disproof) ≡ true }
{
    let mut line = LineText::new();
    push_text(&mut line, b"# front ");
    push_text(&mut line, side_word(side));
    line.push(b' ');
    push_digits(&mut line, expansions);
    line.push(b' ');
    push_count(&mut line, proof);
    line.push(b' ');
    push_count(&mut line, disproof);
    line.push(b'\n');
    line
}

fn side_word(side: Side) -> &'static [u8]
    ensures word { result.now ≡ side_word side }
    ensures short { length result.now ≡ 1 }
{
    match side {
        Side::White => b"W",
        Side::Black => b"B",
    }
}

/// Puts a number in decimal behind what is there, or `inf` for the infinite number.
fn push_count(line: &mut LineText, count: Count)
    requires { array_vec_len line.old + 10 ≤ line_room }
    ensures items { line.new.items ≡ line.old.items ++ count_word count }
    ensures bound { array_vec_len line.new ≤ array_vec_len line.old + 10 }
    ensures word { IsRemarkWord (count_word count) }
{
    match count {
        Count::Finite(number) => push_digits(line, number),
        Count::Infinite => push_text(line, b"inf"),
    }
}

/// Puts a number in decimal behind what is there.
fn push_digits(line: &mut LineText, number: u32)
    requires { array_vec_len line.old + 10 ≤ line_room }
    ensures items { line.new.items ≡ line.old.items ++ decimal number }
    ensures bound { array_vec_len line.new ≤ array_vec_len line.old + 10 }
    ensures word { IsRemarkWord (decimal number) }
{
    push_number(line, number);
}
