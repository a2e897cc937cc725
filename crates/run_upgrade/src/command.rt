//! The command, over any source and any sink.
ghost use Rattle.device_rules.specs.Devices.{Rose};
ghost use Rattle.run_frame.specs.Streams.{streams};
ghost use Rattle.run_upgrade.specs.Upgrades.{UpgradeOwes};

use crate::upgraded::Upgraded;
use crate::writing::{Writer, put_verdict};
use io_ports::{Lines, Sink, Source, put_all};
use proof_text::Version;
use run_frame::RunStop;
use run_proof::{Until, head_of, read_head, read_lines};
use std::alloc::Global;

/// Reads a proof of the first version, and writes it in the second: the head as soon as its game is read, each lemma as soon
/// as it is accepted, and the verdict behind the end of the input. A lemma for which an earlier one claims the same at the
/// mirror image of its position rests on the first such lemma; all else stays, but for the remarks, which are dropped. It
/// ends as the definitions answer the text, unless a stream failed, which comes only where its count of faults rose, or
/// memory ran out. Where a line stops the run, what was written is handed on.
pub fn upgrade<S: Source, O: Sink>(alloc: Global, source: &mut S, out: &mut O) -> Upgraded
    ensures { UpgradeOwes (streams S.left S.last_read O.written source.old source.new out.old out.new)
        (Rose (S.faults source.old) (S.faults source.new)) (Rose (O.faults out.old) (O.faults out.new)) result }
{
    let mut lines = Lines::new();
    let head = read_head(Some(Version::One), &mut lines, source)?;
    put_all(out, head_of(Version::Two, &head.game).as_slice())?;
    let mut writer = Writer::new(alloc);
    match read_lines(
        alloc,
        &head,
        Until::End,
        &mut lines,
        source,
        &mut writer,
        out,
    ) {
        Ok(read) => {
            put_verdict(read.accepted.verdict, out)?;
            Ok(())
        }
        Err(RunStop::Own(stop)) => {
            out.flush()?;
            Err(RunStop::Own(stop))
        }
        Err(RunStop::Write) => Err(RunStop::Write),
    }
}
