//! The zones that fit at a position, each with the set of its squares and that of its columns, so that a search compares
//! two zones without computing them again.
ghost use Rattle.std.specs.Prelude.{◌≡◌, ◌+◌, ◌<◌, ◌≤◌, ℕ, [], length, drop, Some, slice_get, slice_index_or, slice_set};
ghost use Rattle.board_squares.specs.Words.{place_of};
ghost use Rattle.rule_compat.specs.declared.instance.Instance.{Instance as Listed};
ghost use Rattle.rule_compat.specs.Written.{written_list};
ghost use Rattle.walk_rules.specs.Walk.{fitting_zones};
ghost use Rattle.rule_chooser.specs.declared.zones.TheConstants.{MOST_FITTING, PLACES};
ghost use Rattle.rule_chooser.specs.Links.{least_place, next_at, IsLinked};

use arrayvec::ArrayVec;
use board_bits::{Position, Square, place_of};
use rule_compat::{
    Baseclaim, Baseinverse, Claimeven, Highinverse, Instance, Lowinverse, Zone, push_baseclaims,
    push_baseinverses, push_claimevens, push_highinverses, push_lowinverses,
};
use rule_law::{Rule, Taker};

/// No board has more zones that fit at one position: those of five kinds, each at its most.
const MOST_FITTING: usize = 1580;

/// The widest board has ten columns of eleven places each, of which the last is a gap.
const PLACES: usize = 110;

/// A list of zones, which takes them from the lists of the rules. Those with the same first square are linked, so that a
/// search goes through them alone.
#[derive(Drop)]
pub(crate) struct Zones {
    pub(crate) list: ArrayVec<Zone, MOST_FITTING>,
    /// Which is the first with its first square at each place; where there is none, the length of the list.
    pub(crate) heads: [u16; PLACES],
    /// Which is the next with the same first square, for each of the list.
    pub(crate) links: [u16; MOST_FITTING],
}

impl Zones {
    /// The list without zones.
    pub(crate) fn new() -> Zones
        ensures { result.list.items ≡ [] }
    {
        Zones {
            list: ArrayVec::new(),
            heads: [0; PLACES],
            links: [0; MOST_FITTING],
        }
    }

    /// Lists and links all zones that fit at the position, kind by kind, in place of what was listed.
    pub(crate) fn list(&mut self, p: &Position)
        ensures list { written_list self.new.list.items ≡ fitting_zones p.now }
        ensures links { IsLinked self.new.list.items self.new.heads self.new.links }
    {
        self.list_fitting(p);
        self.heads = no_heads(self.list.len());
        link(self.list.as_slice(), &mut self.heads, &mut self.links);
    }

    /// Lists them.
    fn list_fitting(&mut self, p: &Position)
        ensures { written_list self.new.list.items ≡ fitting_zones p.now }
    {
        p.has_a_board();
        self.list.clear();
        push_claimevens(p, self);
        push_baseinverses(p, self);
        push_lowinverses(p, self);
        push_highinverses(p, self);
        push_baseclaims(p, self);
    }

    /// The number of the first zone with its first square here; the length of the list where there is none.
    pub(crate) fn first_with(&self, square: Square) -> usize
        requires { IsLinked self.now.list.items self.now.heads self.now.links }
        ensures { result ≡ next_at (place_of square) 0 self.now.list.items }
    {
        usize::from(self.heads[place_of(square) as usize])
    }

    /// The number of the next zone with the same first square as this one.
    pub(crate) fn next(&self, index: usize) -> usize
        requires links { IsLinked self.now.list.items self.now.heads self.now.links }
        requires within { index < length self.now.list.items }
        ensures { (zone : Listed) → slice_get self.now.list.items index ≡ Some zone → result ≡ next_at (least_place zone) (index + 1) (drop (index + 1) self.now.list.items) }
    {
        // its contract says that no list has more
        let _most = self.list.len();
        usize::from(self.links[index])
    }
}

/// The heads of a list of so many zones before one is linked.
fn no_heads(zones: usize) -> [u16; PLACES]
    requires { zones ≤ MOST_FITTING }
    ensures { (place : ℕ) → place < PLACES → slice_index_or result place 0 ≡ zones }
{
    [zones as u16; PLACES]
}

/// Links the zones of a list, from the last to the first.
fn link(list: &[Zone], heads: &mut [u16; PLACES], links: &mut [u16; MOST_FITTING])
    requires few { length list.now ≤ MOST_FITTING }
    requires none { (place : ℕ) → place < PLACES → slice_index_or heads.old place 0 ≡ length list.now }
    ensures { IsLinked list.now heads.new links.new }
{
    let mut index = list.len();
    'zones: while index > 0 {
        index -= 1;
        link_one(&list[index], index, heads, links);
    }
}

/// The place of the zone's first square, in square order.
fn least_place(zone: &Zone) -> usize
    ensures value { result ≡ least_place zone.now }
    ensures within { result < PLACES }
{
    match zone.squares().first() {
        Some(square) => place_of(square) as usize,
        None => 0,
    }
}

/// Links a zone with this number in front of those that are linked already.
fn link_one(zone: &Zone, index: usize, heads: &mut [u16; PLACES], links: &mut [u16; MOST_FITTING])
    requires { index < MOST_FITTING }
    ensures heads { heads.new ≡ slice_set heads.old (least_place zone.now) index }
    ensures links { links.new ≡ slice_set links.old index (slice_index_or heads.old (least_place zone.now) 0) }
    ensures place { least_place zone.now < PLACES }
    ensures places { length heads.old ≡ PLACES }
    ensures all { length links.old ≡ MOST_FITTING }
{
    let place = least_place(zone);
    links[index] = heads[place];
    heads[place] = index as u16;
}

impl Taker<Claimeven> for Zones {
    ghost taken = { λ zones. written_list zones.list.items };

    ghost room = { λ zones. MOST_FITTING };

    fn take(&mut self, rule: Claimeven) {
        let squares = rule.zone();
        self.list.push(Zone::of(Instance::Claimeven(rule), squares));
    }
}

impl Taker<Baseinverse> for Zones {
    ghost taken = { λ zones. written_list zones.list.items };

    ghost room = { λ zones. MOST_FITTING };

    fn take(&mut self, rule: Baseinverse) {
        let squares = rule.zone();
        self.list
            .push(Zone::of(Instance::Baseinverse(rule), squares));
    }
}

impl Taker<Lowinverse> for Zones {
    ghost taken = { λ zones. written_list zones.list.items };

    ghost room = { λ zones. MOST_FITTING };

    fn take(&mut self, rule: Lowinverse) {
        let squares = rule.zone();
        self.list
            .push(Zone::of(Instance::Lowinverse(rule), squares));
    }
}

impl Taker<Highinverse> for Zones {
    ghost taken = { λ zones. written_list zones.list.items };

    ghost room = { λ zones. MOST_FITTING };

    fn take(&mut self, rule: Highinverse) {
        let squares = rule.zone();
        self.list
            .push(Zone::of(Instance::Highinverse(rule), squares));
    }
}

impl Taker<Baseclaim> for Zones {
    ghost taken = { λ zones. written_list zones.list.items };

    ghost room = { λ zones. MOST_FITTING };

    fn take(&mut self, rule: Baseclaim) {
        let squares = rule.zone();
        self.list.push(Zone::of(Instance::Baseclaim(rule), squares));
    }
}
