//! The lines of moves with their marks.
ghost use Rattle.std.specs.Prelude.{◌≡◌, ◌+◌, ◌≤◌, true, drop, length, is_ok, IsSome};
ghost use Rattle.device_rules.specs.Devices.{HasCause, AppendsPrefix};
ghost use Rattle.game_rules.specs.Position.{has_room, played};
ghost use Rattle.tool_text.specs.Marks.{mark_word, mark_line, mark_lines};
ghost use Rattle.run_annotate.specs.Lines.{moves_before, PutsLines};

use board_bits::{Column, Game, Position};
use io_ports::{Failed, Sink, put_all};
use proof_tools::{Mark, position_after};
use run_frame::{LineText, push_number, push_square, push_text};

/// Writes the lines of a game's last moves, with these marks.
pub(crate) fn write_marks<O: Sink>(
    game: &Game,
    last: usize,
    marks: &[Mark],
    out: &mut O,
) -> Result<(), Failed>
    requires { length (drop (moves_before game.now last) game.now.moves) ≡ length marks.now }
    ensures written { PutsLines game.now (moves_before game.now last) marks.now (is_ok result) (O.written out.old) (O.written out.new) }
    ensures cause { HasCause (O.faults out.old) (O.faults out.new) result }
{
    let moves = game.moves();
    let first = moves.len().saturating_sub(last);
    let (before, marked) = moves.split_at(first);
    let start = position_after(game.position().size(), before);
    write_lines(first as u32, start, marked, marks, out)?;
    out.flush()
}

/// Writes the lines of moves from a position on, behind so many others.
fn write_lines<O: Sink>(
    before: u32,
    start: Position,
    columns: &[Column],
    marks: &[Mark],
    out: &mut O,
) -> Result<(), Failed>
    requires few { before + length columns.now ≤ 100 }
    requires legal { IsSome (played start columns.now) }
    requires each { length columns.now ≡ length marks.now }
    ensures written { AppendsPrefix (is_ok result) (O.written out.old) (O.written out.new) (mark_lines (before + 1) start columns.now marks.now) }
    ensures cause { HasCause (O.faults out.old) (O.faults out.new) result }
{
    let mut position = start;
    for index in 0..columns.len() {
        let column = columns[index];
        let number = before + index as u32 + 1;
        let line = mark_line(number, &position, column, marks[index]);
        put_all(out, line.as_slice())?;
        position = position.after(column);
    }
    Ok(())
}

/// The line of a move with its mark.
fn mark_line(number: u32, position: &Position, column: Column, mark: Mark) -> LineText
    requires { has_room position.now column ≡ true }
    ensures { result.items ≡ mark_line number position.now column mark }
{
    let mut line = LineText::new();
    push_number(&mut line, number);
    push_text(&mut line, b" ");
    let Some(square) = position.playable(column) else {
        unreachable!()
    };
    push_square(&mut line, square);
    push_text(&mut line, b" ");
    push_text(&mut line, mark_word(mark));
    push_text(&mut line, b"\n");
    line
}

/// The word of a mark.
fn mark_word(mark: Mark) -> &'static [u8]
    ensures word { result.now ≡ mark_word mark }
    ensures short { length result.now ≤ 4 }
{
    match mark {
        Mark::Fine => b"ok",
        Mark::Bad => b"bad",
        Mark::Open => b"open",
    }
}
