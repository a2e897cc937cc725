//! How a position stands that no move was looked at from.
ghost use Rattle.std.specs.Prelude.{◌≡◌};
ghost use Rattle.game_rules.specs.Position.{end_of};
ghost use Rattle.front_rules.specs.Front.{verdict_at, planned};
ghost use Rattle.proof_front.specs.Numbers.{leaf_numbers};

use crate::node::{Node, Numbers};
use board_bits::{End, Position, Side};
use front_rules::LeafVerdict;
use node_pool::Slot;
use rule_chooser::Chooser;

/// What a front asks: whether the side wins, with plans from the first `reach` sets of zones.
#[derive(Clone, Copy)]
pub(crate) struct Asked {
    pub side: Side,
    pub reach: u32,
}

impl Asked {
    /// A leaf for the position, with the node beside it. `ended` is how the game has ended there, None where it goes on.
    /// The chooser is asked at most once, and not where the game has ended.
    pub fn leaf(
        &self,
        position: &Position,
        ended: Option<End>,
        next: Option<Slot>,
        chooser: &mut Chooser,
    ) -> Node
        requires { ended ≡ end_of position.now }
        ensures { result ≡ record { position = position.now; first = None; next = next; numbers = leaf_numbers (verdict_at self.now.side (planned self.now.reach) position.now) } }
    {
        Node {
            position: *position,
            first: None,
            next,
            numbers: Numbers::of_leaf(self.verdict(position, ended, chooser)),
        }
    }

    fn verdict(&self, position: &Position, ended: Option<End>, chooser: &mut Chooser) -> LeafVerdict
        requires { ended ≡ end_of position.now }
        ensures { result ≡ verdict_at self.now.side (planned self.now.reach) position.now }
    {
        match ended {
            Some(end) if end == self.side.win() => LeafVerdict::Yes,
            Some(_) => LeafVerdict::No,
            None if self.is_planned(position, chooser) => LeafVerdict::No,
            None => LeafVerdict::Unsettled,
        }
    }

    /// Whether White is asked about and a plan of Black's is chosen.
    fn is_planned(&self, position: &Position, chooser: &mut Chooser) -> bool
        ensures { result ≡ planned self.now.reach self.now.side position.now }
    {
        match self.side {
            Side::White => self.reach > 0 && chooser.find(position, self.reach),
            Side::Black => false,
        }
    }
}
