//! The player who answers Black's lines by a threat.
ghost use Rattle.std.specs.Prelude.{◌≡◌, ◌≤◌};
ghost use Rattle.run_threat.specs.Turns.{turns_left, turn_end};

use board_bits::{Column, End, MoveFault, Position, Size};
use run_turns::{Player, Turn, TurnEnd};
use std::marker::Model;
use threat_rules::Threat;

/// A game from a threat: the threat, and the position that the game has come to, from the threat's own by moves of
/// Black's with the threat's answers. Black is to move there, or White has just made a line.
#[derive(Drop)]
pub(crate) struct ThreatPlayer {
    threat: Threat,
    stands: Position,
}

impl Model for ThreatPlayer {
    ghost use Rattle.run_threat.specs.Turns.{ThreatGame, IsUnderWay};

    ghost Value = { ThreatGame };

    ghost view = { λ player. record { threat = player.threat; stands = player.stands } };

    ghost invariant = { λ player. IsUnderWay player.threat player.stands };
}

impl ThreatPlayer {
    /// A player who begins at the threat's position.
    pub(crate) fn new(threat: Threat) -> ThreatPlayer
        ensures value { result ≡ record { threat = threat; stands = threat.at } }
        ensures few { turns_left result ≤ 50 }
    {
        let stands = *threat.at();
        stands.has_a_board();
        ThreatPlayer { threat, stands }
    }
}

impl Player for ThreatPlayer {
    ghost use Rattle.run_threat.specs.Turns.{threat_stands, player_turn, turns_left};

    ghost stands = { threat_stands };

    ghost turn = { player_turn };

    ghost left = { turns_left };

    fn size(&self) -> Size {
        self.stands.size()
    }

    fn answer(&mut self, column: Column) -> Result<Turn, MoveFault> {
        let now = self.stands.play(column)?;
        let last = self.stands.playable(column).unwrap();
        let white = self.threat.reply(&now, last);
        self.stands = now.after(white.column());
        Ok(Turn {
            theirs: Some(last),
            mine: Some(white),
            end: turn_end(self.stands.ended()),
        })
    }
}

/// What White's man ended.
fn turn_end(ended: Option<End>) -> TurnEnd
    ensures { result ≡ turn_end ended }
{
    match ended {
        Some(End::White) => TurnEnd::Won,
        Some(End::Black | End::Draw) | None => TurnEnd::GoesOn,
    }
}
