//! What `follow` says where there is no lemma to play by.
ghost use Rattle.std.specs.Prelude.{◌≡◌, ◌++◌};
ghost use Rattle.run_follow.specs.Follows.{no_claim_line};
ghost use Rattle.run_follow.specs.Reading.{proof_stop};

use run_frame::{Ending, LineText, RunStop, begin_refusal, push_text};
use run_proof::ProofStop;
use run_turns::{GameEnd, GameStop};

/// Why the holder doesn't play.
#[derive(Clone, Copy, Drop)]
pub enum NotFollowed {
    /// The proof isn't accepted up to its verdict, or what stops its reading: status 3, 4, 6 or 8.
    Proof(ProofStop),
    /// The verdict, in the line with this number, names no lemma that serves the holder: status 4.
    NoClaim(u64),
}

/// How a run of `follow` ends.
pub type FollowEnd = GameEnd<NotFollowed>;

impl Ending for NotFollowed {
    ghost use Rattle.run_follow.specs.Follows.{head_status, head_text};

    ghost status_of = { head_status };

    ghost text_of = { head_text };

    fn status(&self) -> u8 {
        match self {
            NotFollowed::Proof(stop) => stop.status(),
            NotFollowed::NoClaim(_) => 4,
        }
    }

    fn text(&self) -> LineText {
        match self {
            NotFollowed::Proof(stop) => stop.text(),
            NotFollowed::NoClaim(at) => no_claim_text(*at),
        }
    }
}

/// What stops the reading of the proof stops the run.
pub(crate) fn proof_stop(stop: RunStop<ProofStop>) -> RunStop<GameStop<NotFollowed>>
    ensures { result ≡ proof_stop stop }
{
    match stop {
        RunStop::Own(stop) => RunStop::Own(GameStop::Head(NotFollowed::Proof(stop))),
        RunStop::Write => RunStop::Write,
    }
}

/// Says that the verdict names no lemma that serves the holder, and the number of its line.
fn no_claim_text(at: u64) -> LineText
    ensures { result.items ≡ no_claim_line at }
{
    let mut text = begin_refusal(at);
    push_text(&mut text, b"NoClaim\n");
    text
}
