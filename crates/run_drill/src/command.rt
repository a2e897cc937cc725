//! The command, over any sink.
ghost use Rattle.std.specs.Prelude.{◌≡◌, ℕ, ◌<◌, ◌≤◌, [], Err, IfOk, is_ok};
ghost use Rattle.device_rules.specs.Devices.{HasCause, Rose, AppendsPrefix};
ghost use Rattle.game_rules.specs.Cost.{cost};
ghost use Rattle.proof_text.specs.Spelling.{greatest_number};
ghost use Rattle.drill_games.specs.Summary.{IsSummary};
ghost use Rattle.run_questions.specs.Planned.{solved_within};
ghost use Rattle.run_frame.specs.Streams.{StillHolds};
ghost use Rattle.run_frame.specs.declared.run_stop.RunStop.TheVariants as stops;
ghost use Rattle.run_drill.specs.Drills.{games_of, Drills, DrillCompletes, drill_line, drilled_status};

use crate::drilled::{Drilled, Drilling};
use drill_games::{Tally, next_game};
use io_ports::{Failed, Sink};
use run_frame::{LineText, RunStop, push_number, push_text, put_line};
use run_questions::{Chooser, Table, find_value};
use std::alloc::{AllocError, Global};

/// How many settled positions the table of each game keeps.
const GAME_TABLE: u32 = 100_000;

/// Makes `games` games of at most `moves` moves each on a board of this size, from the number `seed`; searches each as
/// `prove` does, within `nodes` positions and with plans from the first `reach` sets of zones; and writes how many are won,
/// drawn and lost for the side to move, and of how many nothing was found.
pub fn drill<O: Sink>(alloc: Global, how: &Drilling, out: &mut O) -> Drilled
    requires nodes { how.now.nodes ≤ greatest_number }
    ensures outcome { Drills (games_of how.now) how.now.nodes how.now.reach (O.written out.old) (O.written out.new) result }
    ensures held { StillHolds (O.written out.old) (O.written out.new) }
    ensures write_fault { result ≡ Err stops.Write → Rose (O.faults out.old) (O.faults out.new) }
    ensures complete { (Rose (O.faults out.old) (O.faults out.new) → ⊥) → DrillCompletes (drilled_status result) }
{
    match tally_of(alloc, how) {
        Ok(tally) => match put_line(out, drill_line(tally).as_slice()) {
            Ok(()) => Ok(()),
            Err(Failed) => Err(RunStop::Write),
        },
        Err(AllocError) => Err(RunStop::Own(AllocError)),
    }
}

/// The counts of what is found of the games, each with a table of its own.
fn tally_of(alloc: Global, how: &Drilling) -> Result<Tally, AllocError>
    requires nodes { how.now.nodes ≤ greatest_number }
    ensures { IfOk result (IsSummary (cost (solved_within how.now.reach)) how.now.nodes (games_of how.now)) }
{
    let mut chooser = Chooser::new();
    let mut tally = Tally::new();
    let mut state = how.seed;
    for made in 0..how.games {
        let game = next_game(how.size, how.moves, &mut state);
        let mut table = Table::new(alloc, GAME_TABLE)?;
        tally.count(find_value(&game, how.nodes, how.reach, &mut table, &mut chooser));
    }
    Ok(tally)
}

/// The line of the counts, with its line feed.
fn drill_line(tally: Tally) -> LineText
    ensures { result.items ≡ drill_line tally }
{
    let mut line = LineText::new();
    push_text(&mut line, b"drill win ");
    push_number(&mut line, tally.won);
    push_text(&mut line, b" draw ");
    push_number(&mut line, tally.drawn);
    push_text(&mut line, b" loss ");
    push_number(&mut line, tally.lost);
    push_text(&mut line, b" unknown ");
    push_number(&mut line, tally.unknown);
    line.push(b'\n');
    line
}
