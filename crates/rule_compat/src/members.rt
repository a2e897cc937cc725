//! The members of a list: which one doesn't fit, and which two may not stand together. Each member's zone is computed
//! once, and compared with the zones before it.
ghost use Rattle.std.specs.Prelude.{◌≡◌, ℕ, ◌+◌, ◌-◌, ◌<◌, ◌≤◌, true, not, [], length, take, Some, None};
ghost use Rattle.std.specs.List.{list_all, position_from};
ghost use Rattle.std.specs.Option.{option_map};
ghost use Rattle.plan_rules.specs.Rules.{fits, together};
ghost use Rattle.plan_rules.specs.Zones.{first_two_from, lesser_two, owns_zone, zones_from};
ghost use Rattle.rule_compat.specs.Written.{written, written_list};
ghost use Rattle.plan_rules.specs.declared.TheConstants.{MOST_MEMBERS};

use crate::Instance;
use crate::placed::{PlacedZone, first_clash};
use arrayvec::ArrayVec;
use group_rules::{Position, Rule};

/// No list whose members fit, and each two of which may stand together, has more zones.
pub(crate) const MOST_ZONES: usize = 50;

/// The first member that doesn't fit, counted from 1.
pub(crate) fn first_misfit(p: &Position, list: &[Instance]) -> Option<u32>
    requires { length list.now ≤ MOST_MEMBERS }
    ensures { result ≡ position_from (λ w. not (fits w p.now)) 1 (written_list list.now) }
{
    for (index, instance) in list.iter().enumerate() {
        if !instance.fits(p) {
            return Some(index as u32 + 1);
        }
    }
    None
}

/// The least two members that may not stand together, counted from 1; and where there are none, the zones of all
/// members are put into the list.
pub(crate) fn gather(
    p: &Position,
    list: &[Instance],
    zones: &mut ArrayVec<PlacedZone, MOST_ZONES>,
) -> Option<(u32, u32)>
    requires few { length list.now ≤ MOST_MEMBERS }
    requires fitting { list_all (λ w. fits w p.now) (written_list list.now) ≡ true }
    requires none { zones.old.items ≡ [] }
    ensures two { result ≡ first_two_from (λ x y. together (written x) (written y)) 1 list.now }
    ensures zones { result ≡ None → zones.new.items ≡ zones_from (λ x. owns_zone (written x)) 1 list.now }
{
    p.has_a_board();
    for (index, instance) in list.iter().enumerate() {
        if instance.owns_zone() {
            let zone = PlacedZone::of(index as u32 + 1, instance);
            if let Some(first) = first_clash(zones.as_slice(), &zone) {
                return Some(least_two(list, zones.as_slice(), first, index as u32 + 1));
            }
            zones.push(zone);
        }
    }
    None
}

/// The least two members that may not stand together, from the first two that were found, by the second one. Only
/// members before the first one of these can make less, so their zones are enough.
fn least_two(list: &[Instance], zones: &[PlacedZone], first: u32, second: u32) -> (u32, u32)
    requires few { length list.now ≤ MOST_MEMBERS }
    requires within { second ≤ length list.now }
    requires order { first < second }
    requires zones { zones.now ≡ zones_from (λ x. owns_zone (written x)) 1 (take (second - 1) list.now) }
    requires two { first_two_from (λ x y. together (written x) (written y)) 1 (take second list.now) ≡ Some (first, second) }
    ensures { first_two_from (λ x y. together (written x) (written y)) 1 list.now ≡ Some result }
{
    let mut least = (first, second);
    for index in second as usize..list.len() {
        let zone = PlacedZone::of(index as u32 + 1, &list[index]);
        least = lesser(least, first_clash(zones, &zone), index as u32 + 1);
    }
    least
}

/// The two, or the second one with what was found before it, where that is less than the first of the two.
fn lesser(least: (u32, u32), found: Option<u32>, second: u32) -> (u32, u32)
    ensures value { lesser_two (Some least) (option_map (λ first. (first, second)) found) ≡ Some result }
    ensures less { result.0 ≤ least.0 }
{
    match found {
        Some(first) if first < least.0 => (first, second),
        _ => least,
    }
}
