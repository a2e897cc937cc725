//! The command, over any source and any sink. The memory that it can't go on without, for a table of what was found and for
//! a front, is taken before the first line.
ghost use Rattle.std.specs.Prelude.{◌≡◌, ℕ, List, Option, ◌≤◌, IfSome};
ghost use Rattle.std.specs.Io.KnownBytes.{IsAtEnd};
ghost use Rattle.device_rules.specs.Devices.{Rose};
ghost use Rattle.game_rules.specs.Game.{IsTextOf};
ghost use Rattle.proof_text.specs.Spelling.{greatest_number};
ghost use Rattle.run_frame.specs.Streams.{streams};
ghost use Rattle.run_questions.specs.SizedFronts.{AreSlots};
ghost use Rattle.run_prove.specs.Proves.{IsRoom, proved_of, proved_status, ProvesFrom, ProveOwes};

use crate::proved::{Proved, Proving};
use crate::writing::write_proof;
use board_bits::Game;
use io_ports::{Failed, Sink, Source};
use position_table::Table;
use proof_text::Verdict;
use run_frame::{MemoryStop, RunStop, Sought, read_game_input};
use run_questions::{Chooser, front_for};
use std::alloc::Global;
use std::mem::forget;

/// Reads a game and writes a proof of its position's value, from a search that may enter `nodes` positions, with plans from
/// the first `reach` sets of zones. Where a number of slots is given, a front with so many grows before each question. The proof
/// is of this version: in the second, mirror images of positions that were found are not searched again.
pub fn prove<S: Source, O: Sink>(alloc: Global, how: Proving, source: &mut S, out: &mut O) -> Proved
    requires nodes { how.nodes ≤ greatest_number }
    requires slots { IfSome how.slots AreSlots }
    requires room { IsRoom how.table }
    ensures { ProveOwes how.version how.nodes how.reach how.slots (streams S.left S.last_read O.written source.old source.new out.old out.new)
        (Rose (S.faults source.old) (S.faults source.new)) (Rose (O.faults out.old) (O.faults out.new)) result }
{
    match read_game_input(source) {
        Ok(game) => prove_game(alloc, &game, how, out),
        Err(stop) => Err(RunStop::Own(MemoryStop::Input(stop))),
    }
}

/// Takes the memory for the table and the front, and writes a proof of the game's position.
fn prove_game<O: Sink>(alloc: Global, game: &Game, how: Proving, out: &mut O) -> Proved
    requires nodes { how.nodes ≤ greatest_number }
    requires slots { IfSome how.slots AreSlots }
    requires room { IsRoom how.table }
    ensures proves { (text : List ℕ) (input left : Option (List ℕ)) (last_read : ℕ) → IsTextOf text game.now → IsAtEnd left
        → ProvesFrom how.version how.nodes how.reach how.slots text
        (record { input = input; left = left; last_read = last_read; old = O.written out.old; new = O.written out.new }) result }
    ensures read { proved_status result ≡ 6 → ⊥ }
    ensures write_fault { proved_status result ≡ 7 → Rose (O.faults out.old) (O.faults out.new) }
{
    let mut chooser = Chooser::new();
    let Ok(mut table) = Table::new(alloc, how.table) else {
        return Err(RunStop::Own(MemoryStop::Memory));
    };
    let Ok(mut front) = front_for(alloc, game.position(), how.slots, how.reach, &mut chooser) else {
        return Err(RunStop::Own(MemoryStop::Memory));
    };
    let proved = write_proof(
        game,
        how.nodes,
        how.reach,
        how.version,
        &mut table,
        &mut front,
        &mut chooser,
        out,
    );
    // the run ends here, so the table's memory needn't be given back entry by entry
    forget(table);
    proved_of(proved)
}

/// The end of a run that wrote a proof with the verdict, or failed to.
fn proved_of(written: Result<Verdict, Failed>) -> Proved
    ensures { result ≡ proved_of written }
{
    match written {
        Ok(Verdict::Unknown) => Ok(Sought::Missing),
        Ok(_) => Ok(Sought::Found),
        Err(Failed) => Err(RunStop::Write),
    }
}
