//! The command, over any source and any sink.
ghost use Rattle.device_rules.specs.Devices.{Rose};
ghost use Rattle.run_frame.specs.Streams.{streams};
ghost use Rattle.run_threat.specs.Threatens.{ThreatOwes};

use crate::no_threat::{NoThreat, ThreatEnd};
use crate::threat_line::threat_line;
use crate::threat_player::ThreatPlayer;
use io_ports::{Lines, Sink, Source};
use run_frame::{RunStop, put_line, read_game_lines};
use run_turns::{GameStop, play_turns};
use threat_rules::Threat;

/// The number of Black's first line.
const FIRST_MOVE: u64 = 3;

/// Writes the first odd threat of a game's position and plays by it, to the end of the input or to what stops play; or
/// writes that there is none. It ends as the definitions say of the input, unless a stream failed, which comes only where
/// its count of faults rose.
pub fn threat<S: Source, O: Sink>(source: &mut S, out: &mut O) -> ThreatEnd
    ensures { ThreatOwes (streams S.left S.last_read O.written source.old source.new out.old out.new)
        (Rose (S.faults source.old) (S.faults source.new)) (Rose (O.faults out.old) (O.faults out.new)) result }
{
    let mut lines = Lines::new();
    let root = match read_game_lines(&mut lines, source) {
        Ok(root) => root,
        Err(why) => return Err(RunStop::Own(GameStop::Input(why))),
    };
    match Threat::first(&root) {
        Some(threat) => {
            put_line(out, threat_line(&threat).as_slice())?;
            let mut player = ThreatPlayer::new(threat);
            play_turns(&mut player, FIRST_MOVE, &mut lines, source, out)
        }
        None => {
            put_line(out, b"no threat\n")?;
            Err(RunStop::Own(GameStop::Head(NoThreat)))
        }
    }
}
