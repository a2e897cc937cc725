//! The line that is written first: the holder's first move, where it has one.
ghost use Rattle.std.specs.Prelude.{◌≡◌, is_ok, IfSome};
ghost use Rattle.device_rules.specs.Devices.{HasCause, AppendsPrefix};
ghost use Rattle.follow_text.specs.Follow.{named_for};
ghost use Rattle.play_text.specs.Play.{text_of};
ghost use Rattle.run_turns.specs.Turns.{HasRoom};
ghost use Rattle.run_follow.specs.Turns.{man_of, first_lines};

use crate::follow_player::turn_of;
use board_bits::{Position, Side};
use io_ports::{Failed, Sink};
use proof_player::FollowReply;
use proof_text::Verdict;
use run_frame::put_line;
use run_turns::turn_line;

/// Writes the line of the holder's first move at the root, where it has one.
pub(crate) fn put_first<O: Sink>(
    root: &Position,
    first: Option<FollowReply>,
    out: &mut O,
) -> Result<(), Failed>
    requires { IfSome first (λ reply. HasRoom root.now (man_of reply).0) }
    ensures written { AppendsPrefix (is_ok result) (O.written out.old) (O.written out.new) (text_of (first_lines root.now first)) }
    ensures cause { HasCause (O.faults out.old) (O.faults out.new) result }
{
    match first {
        Some(reply) => put_line(out, turn_line(&turn_of(root, None, reply)).as_slice()),
        None => Ok(()),
    }
}

/// The lemma that the verdict names and that serves the holder, where this side is to move at the root.
pub(crate) fn named_for(holder: Side, mover: Side, verdict: Verdict) -> Option<u32>
    ensures { result ≡ named_for holder mover verdict }
{
    match verdict {
        Verdict::Win(lemma) => (holder == mover).then_some(lemma),
        Verdict::Loss(lemma) => (holder != mover).then_some(lemma),
        Verdict::Draw(white_fails, black_fails) => match holder {
            Side::White => Some(black_fails),
            Side::Black => Some(white_fails),
        },
        Verdict::Unknown => None,
    }
}
