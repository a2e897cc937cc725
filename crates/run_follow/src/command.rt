//! The command, over any source and any sink.
ghost use Rattle.device_rules.specs.Devices.{Rose};
ghost use Rattle.run_frame.specs.Streams.{streams};
ghost use Rattle.run_follow.specs.Follows.{FollowOwes};

use crate::follow_player::FollowPlayer;
use crate::not_followed::{FollowEnd, NotFollowed, proof_stop};
use crate::opening::{named_for, put_first};
use crate::verdict::read_to_verdict;
use board_bits::Side;
use io_ports::{Lines, Sink, Source};
use proof_player::Follow;
use run_frame::RunStop;
use run_proof::Book;
use run_turns::{GameStop, play_turns};
use std::alloc::Global;

/// Reads a proof of either version up to its verdict, and plays by it for the holder, to the end of the input or to what
/// stops play. Up to the verdict it is refused as by `check`. It ends as the definitions say of the input, unless memory for a
/// lemma ran out, or a stream failed, which comes only where its count of faults rose. No move takes memory.
pub fn follow<S: Source, O: Sink>(
    alloc: Global,
    holder: Side,
    source: &mut S,
    out: &mut O,
) -> FollowEnd
    ensures { FollowOwes holder (streams S.left S.last_read O.written source.old source.new out.old out.new)
        (Rose (S.faults source.old) (S.faults source.new)) (Rose (O.faults out.old) (O.faults out.new)) result }
{
    let mut lines = Lines::new();
    let mut book = Book::new(alloc);
    let proof = match read_to_verdict(alloc, &mut book, &mut lines, source, out) {
        Ok(proof) => proof,
        Err(stop) => return Err(proof_stop(stop)),
    };
    let Some(lemma) = named_for(holder, proof.root.to_move(), proof.verdict) else {
        return Err(RunStop::Own(GameStop::Head(NotFollowed::NoClaim(proof.at))));
    };
    let (follow, first) = Follow::begin(&book, &proof.root, holder, lemma);
    put_first(&proof.root, first, out)?;
    let mut player = FollowPlayer::new(follow);
    play_turns(&mut player, proof.at + 1, &mut lines, source, out)
}
