//! The command, over any source and any sink.
ghost use Rattle.std.specs.Prelude.{◌≡◌};
ghost use Rattle.device_rules.specs.Devices.{Rose};
ghost use Rattle.run_explain.specs.Explains.{explained_of, ExplainOwes};
ghost use Rattle.run_frame.specs.Streams.{streams};

use crate::explained::Explained;
use crate::writing::write_choice;
use io_ports::{Failed, Sink, Source};
use run_frame::{RunStop, Sought, read_game_input};

/// Reads a game and explains the plan that is chosen among the first `reach` sets of its position's walk. Where no stream
/// failed and the input is a game, it ends with a plan exactly where the position is solved within the reach.
pub fn explain<S: Source, O: Sink>(reach: u32, source: &mut S, out: &mut O) -> Explained
    ensures { ExplainOwes reach (streams S.left S.last_read O.written source.old source.new out.old out.new)
        (Rose (S.faults source.old) (S.faults source.new)) (Rose (O.faults out.old) (O.faults out.new)) result }
{
    match read_game_input(source) {
        Ok(game) => explained_of(write_choice(game.position(), reach, out)),
        Err(stop) => Err(RunStop::Own(stop)),
    }
}

/// The end of a run that wrote whether there is a plan, or failed to.
fn explained_of(written: Result<bool, Failed>) -> Explained
    ensures { result ≡ explained_of written }
{
    match written {
        Ok(true) => Ok(Sought::Found),
        Ok(false) => Ok(Sought::Missing),
        Err(Failed) => Err(RunStop::Write),
    }
}
