//! The command, over any source and any sink.
ghost use Rattle.std.specs.Prelude.{◌≡◌, ◌≤◌, ℕ, List, Option};
ghost use Rattle.std.specs.Io.KnownBytes.{IsAtEnd};
ghost use Rattle.device_rules.specs.Devices.{Rose};
ghost use Rattle.game_rules.specs.Game.{IsTextOf};
ghost use Rattle.proof_text.specs.Spelling.{greatest_number};
ghost use Rattle.run_annotate.specs.Annotates.{annotated_status, AnnotatesFrom, AnnotateOwes};
ghost use Rattle.run_frame.specs.Streams.{streams};

use crate::annotated::{Annotated, Annotating};
use crate::searcher::Searcher;
use crate::writing::write_marks;
use board_bits::Game;
use io_ports::{Failed, Sink, Source};
use proof_tools::annotate as marks_of;
use run_frame::{MemoryStop, RunStop, read_game_input};
use std::alloc::{AllocError, Global};

/// Reads a game and marks its last moves, `last` of them, or all where there are fewer, by searches that may enter `nodes`
/// positions each, with plans from the first `reach` sets of zones. A mark is left open only where that number is below the
/// cost of the position before or after its move. Nothing is written before all positions were searched.
pub fn annotate<S: Source, O: Sink>(
    alloc: Global,
    how: Annotating,
    source: &mut S,
    out: &mut O,
) -> Annotated
    requires nodes { how.nodes ≤ greatest_number }
    ensures { AnnotateOwes how.nodes how.reach how.last (streams S.left S.last_read O.written source.old source.new out.old out.new)
        (Rose (S.faults source.old) (S.faults source.new)) (Rose (O.faults out.old) (O.faults out.new)) result }
{
    match read_game_input(source) {
        Ok(game) => annotate_game(alloc, &game, how, out),
        Err(stop) => Err(RunStop::Own(MemoryStop::Input(stop))),
    }
}

/// Marks the last moves of a game, and writes their lines.
fn annotate_game<O: Sink>(alloc: Global, game: &Game, how: Annotating, out: &mut O) -> Annotated
    requires nodes { how.nodes ≤ greatest_number }
    ensures annotates { (text : List ℕ) (input left : Option (List ℕ)) (last_read : ℕ) → IsTextOf text game.now → IsAtEnd left
        → AnnotatesFrom how.nodes how.reach how.last text
        (record { input = input; left = left; last_read = last_read; old = O.written out.old; new = O.written out.new }) result }
    ensures read { annotated_status result ≡ 6 → ⊥ }
    ensures write_fault { annotated_status result ≡ 7 → Rose (O.faults out.old) (O.faults out.new) }
{
    let mut searcher = Searcher::new(alloc, how.nodes, how.reach);
    match marks_of(
        game.position().size(),
        game.moves(),
        how.last as usize,
        &mut searcher,
    ) {
        Ok(marks) => match write_marks(game, how.last as usize, marks.as_slice(), out) {
            Ok(()) => Ok(()),
            Err(Failed) => Err(RunStop::Write),
        },
        Err(AllocError) => Err(RunStop::Own(MemoryStop::Memory)),
    }
}
