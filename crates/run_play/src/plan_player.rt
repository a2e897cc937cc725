//! The player who answers White's lines by a plan.
ghost use Rattle.std.specs.Prelude.{◌≡◌};
ghost use Rattle.run_play.specs.Steps.{man_of};

use board_bits::{Column, MoveFault, Size};
use plan_lines::Plan;
use reply_player::{Reply, Session};
use run_turns::{Player, Turn, TurnEnd};

/// A session of play by a plan, of which each turn gives a line.
#[derive(Drop)]
pub(crate) struct PlanPlayer {
    session: Session,
}

impl PlanPlayer {
    /// A player who begins at the plan's position.
    pub(crate) fn new(plan: Plan) -> PlanPlayer
        ensures { result ≡ record { session = record { plan = plan; stands = plan.at } } }
    {
        PlanPlayer {
            session: Session::new(plan),
        }
    }
}

impl Player for PlanPlayer {
    ghost use Rattle.run_play.specs.Turns.{plan_stands, plan_turn, turns_left};

    ghost stands = { plan_stands };

    ghost turn = { plan_turn };

    ghost left = { turns_left };

    fn size(&self) -> Size {
        self.session.now().size()
    }

    fn answer(&mut self, column: Column) -> Result<Turn, MoveFault> {
        let before = *self.session.now();
        let (black, end) = man_of(self.session.answer(column)?);
        Ok(Turn::new(&before, Some(column), Some(black), end))
    }
}

/// The column of Black's man, and what it ended.
fn man_of(reply: Reply) -> (Column, TurnEnd)
    ensures { result ≡ man_of reply }
{
    match reply {
        Reply::BlackWon(column) => (column, TurnEnd::Won),
        Reply::Filled(column) => (column, TurnEnd::Full),
        Reply::Move(column) => (column, TurnEnd::GoesOn),
    }
}
