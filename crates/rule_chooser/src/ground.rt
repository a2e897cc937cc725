//! What the position alone decides for a search: listed once a call, and lent to each step.
ghost use Rattle.std.specs.Prelude.{◌≡◌, [], Ok};
ghost use Rattle.game_rules.specs.Squares.{has_square, IsSetOf};
ghost use Rattle.board_squares.specs.Size.{sized};
ghost use Rattle.rule_chooser.specs.Ground.{IsGround};

use crate::groups::{OpenGroup, list_groups};
use crate::table::GroupTable;
use crate::zones::Zones;
use arrayvec::ArrayVec;
use board_bits::{Mask, Position, Size};
use game_rules::MOST_GROUPS;

/// The zones that fit, the groups that each side can still fill, and the playable squares.
#[derive(Drop)]
pub(crate) struct Ground {
    table: GroupTable,
    pub(crate) zones: Zones,
    pub(crate) white: ArrayVec<OpenGroup, MOST_GROUPS>,
    pub(crate) black: ArrayVec<OpenGroup, MOST_GROUPS>,
    pub(crate) playable: Mask,
}

impl Ground {
    /// That of no position yet.
    pub(crate) fn new() -> Ground
        ensures zones { result.zones.list.items ≡ [] }
        ensures groups { (result.white.items ≡ []) × (result.black.items ≡ []) }
        ensures playable { IsSetOf (has_square []) result.playable }
    {
        Ground {
            table: GroupTable::of(smallest()),
            zones: Zones::new(),
            white: ArrayVec::new(),
            black: ArrayVec::new(),
            playable: Mask::empty(),
        }
    }

    /// Lists all anew for the position.
    pub(crate) fn list(&mut self, p: &Position)
        ensures { IsGround p.now self.new }
    {
        self.zones.list(p);
        self.table.turn_to(p.size());
        list_groups(p, &self.table, &mut self.white, &mut self.black);
        self.playable = Mask::of(p.playables().as_slice());
    }
}

/// The size of the smallest board.
fn smallest() -> Size
    ensures { Ok result ≡ sized 4 4 4 }
{
    let Ok(size) = Size::new(4, 4) else {
        unreachable!()
    };
    size
}
