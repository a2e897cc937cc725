//! What `threat` says where the game's position has no threat.
use run_frame::{Ending, LineText};
use run_turns::GameEnd;

/// The game's position has no threat, which the output says: status 5.
#[derive(Clone, Copy, Drop)]
pub struct NoThreat;

/// How a run of `threat` ends.
pub type ThreatEnd = GameEnd<NoThreat>;

impl Ending for NoThreat {
    ghost use Rattle.std.specs.Prelude.{[]};
    ghost use Rattle.run_threat.specs.Threatens.{head_status};

    ghost status_of = { head_status };

    ghost text_of = { λ none. [] };

    fn status(&self) -> u8 {
        5
    }

    fn text(&self) -> LineText {
        LineText::new()
    }
}
