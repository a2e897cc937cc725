//! The command, over any source and any sink.
ghost use Rattle.device_rules.specs.Devices.{Rose};
ghost use Rattle.run_frame.specs.Streams.{streams};
ghost use Rattle.run_play.specs.Plays.{PlayOwes};

use crate::head::read_player;
use crate::no_plan::PlayEnd;
use io_ports::{Lines, Sink, Source};
use run_turns::play_turns;

/// The number of White's first line.
const FIRST_MOVE: u64 = 4;

/// Plays a game by a plan, to the end of the input or to what stops play. It ends as the definitions say of the input,
/// unless a stream failed, which comes only where its count of faults rose.
pub fn play<S: Source, O: Sink>(source: &mut S, out: &mut O) -> PlayEnd
    ensures { PlayOwes (streams S.left S.last_read O.written source.old source.new out.old out.new)
        (Rose (S.faults source.old) (S.faults source.new)) (Rose (O.faults out.old) (O.faults out.new)) result }
{
    let mut lines = Lines::new();
    let mut player = read_player(&mut lines, source)?;
    play_turns(&mut player, FIRST_MOVE, &mut lines, source, out)
}
