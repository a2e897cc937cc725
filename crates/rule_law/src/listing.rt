//! Lists of fitting instances, made once for all nine rules. A list is made from sites, the squares or groups that an
//! instance is written with: the rule tests each site, and what fits is handed to whoever takes it, so that no list of
//! a kind has to be made where another is to be filled. The cost is that of the sites.
ghost use Rattle.std.specs.Prelude.{◌≡◌, ℕ, ◌+◌, ◌<◌, ◌≤◌, Bool, true, if◌then◌else◌, List, [], ◌∷◌, ◌++◌, length, Some, None};
ghost use Rattle.std.specs.List.{list_all};
ghost use Rattle.std.specs.Option.{option_map};
ghost use Rattle.game_rules.specs.Position.{Position};
ghost use Rattle.plan_rules.specs.Rules.{RuleInstance, fits};
ghost use Rattle.plan_rules.specs.Listing.{each_with, fitting, if_fits};

use crate::Rule;
use arrayvec::ArrayVec;
use board_bits::Position;

/// A rule whose instances can be listed.
pub trait Listed: Rule + Copy {
    /// What an instance is written with: a square, a group, or a tuple of them.
    type Site: Copy;

    /// The instance of the definitions that it is.
    ghost instance: { Self → RuleInstance };

    /// The instance of the definitions that is written with a site.
    ghost written: { Self.Site → RuleInstance };

    /// Which sites are tried at a position: what they have to meet is not tested again.
    ghost is_site: { Position → Self.Site → Bool };

    /// The instance that is written with the site, and None exactly where none that fits is.
    fn fitting_at(p: &Position, site: Self::Site) -> Option<Self>
        requires { is_site p.now site ≡ true }
        ensures { option_map instance result ≡ (if fits (written site) p.now then Some (written site) else None) };
}

/// Whoever takes instances one after another.
pub trait Taker<R: Listed> {
    /// What was taken, in its order.
    ghost taken: { Self → List RuleInstance };

    /// How many there is room for in all.
    ghost room: { Self → ℕ };

    /// Takes one more.
    fn take(&mut self, rule: R)
        requires { length (taken self.old) < room self.old }
        ensures taken { taken self.new ≡ taken self.old ++ R.instance rule ∷ [] }
        ensures room { room self.new ≡ room self.old };
}

/// Hands over the instances that fit at the position, of those that are written with the sites, in their order.
pub fn list_fitting<R: Listed, T: Taker<R>>(p: &Position, sites: &[R::Site], taker: &mut T)
    requires sites { list_all (R.is_site p.now) sites.now ≡ true }
    requires room { length (T.taken taker.old) + length (fitting R.written p.now sites.now) ≤ T.room taker.old }
    ensures taken { T.taken taker.new ≡ T.taken taker.old ++ fitting R.written p.now sites.now }
    ensures room { T.room taker.new ≡ T.room taker.old }
{
    for site in sites {
        take_fitting(p, *site, taker);
    }
}

/// Hands over the instances that fit at the position, of those that are written with a first and a second part: by the
/// first, and then by the second.
pub fn list_pairs<A: Copy, B: Copy, R: Listed<Site = (A, B)>, T: Taker<R>>(
    p: &Position,
    firsts: &[A],
    seconds: &[B],
    taker: &mut T,
)
    requires sites { list_all (λ first. list_all (λ second. R.is_site p.now (first, second)) seconds.now) firsts.now ≡ true }
    requires room { length (T.taken taker.old) + length (fitting R.written p.now (each_with firsts.now seconds.now)) ≤ T.room taker.old }
    ensures taken { T.taken taker.new ≡ T.taken taker.old ++ fitting R.written p.now (each_with firsts.now seconds.now) }
    ensures room { T.room taker.new ≡ T.room taker.old }
{
    for first in firsts {
        list_beside(p, *first, seconds, taker);
    }
}

/// Hands over those of them with this first part.
fn list_beside<A: Copy, B: Copy, R: Listed<Site = (A, B)>, T: Taker<R>>(
    p: &Position,
    first: A,
    seconds: &[B],
    taker: &mut T,
)
    requires sites { list_all (λ second. R.is_site p.now (first, second)) seconds.now ≡ true }
    requires room { length (T.taken taker.old) + length (fitting (λ second. R.written (first, second)) p.now seconds.now) ≤ T.room taker.old }
    ensures taken { T.taken taker.new ≡ T.taken taker.old ++ fitting (λ second. R.written (first, second)) p.now seconds.now }
    ensures room { T.room taker.new ≡ T.room taker.old }
{
    for second in seconds {
        take_fitting(p, (first, *second), taker);
    }
}

/// Hands over the instances that fit at the position, of those that are written with three parts: by the first, then by
/// the second, and then by the third.
pub fn list_triples<A: Copy, B: Copy, C: Copy, R: Listed<Site = (A, (B, C))>, T: Taker<R>>(
    p: &Position,
    firsts: &[A],
    seconds: &[B],
    thirds: &[C],
    taker: &mut T,
)
    requires sites { list_all (λ first. list_all (λ second. list_all (λ third. R.is_site p.now (first, (second, third))) thirds.now) seconds.now) firsts.now ≡ true }
    requires room { length (T.taken taker.old) + length (fitting R.written p.now (each_with firsts.now (each_with seconds.now thirds.now))) ≤ T.room taker.old }
    ensures taken { T.taken taker.new ≡ T.taken taker.old ++ fitting R.written p.now (each_with firsts.now (each_with seconds.now thirds.now)) }
    ensures room { T.room taker.new ≡ T.room taker.old }
{
    for first in firsts {
        list_pairs_beside(p, *first, seconds, thirds, taker);
    }
}

/// Hands over those of them with this first part.
pub fn list_pairs_beside<A: Copy, B: Copy, C: Copy, R: Listed<Site = (A, (B, C))>, T: Taker<R>>(
    p: &Position,
    first: A,
    seconds: &[B],
    thirds: &[C],
    taker: &mut T,
)
    requires sites { list_all (λ second. list_all (λ third. R.is_site p.now (first, (second, third))) thirds.now) seconds.now ≡ true }
    requires room { length (T.taken taker.old) + length (fitting (λ two. R.written (first, two)) p.now (each_with seconds.now thirds.now)) ≤ T.room taker.old }
    ensures taken { T.taken taker.new ≡ T.taken taker.old ++ fitting (λ two. R.written (first, two)) p.now (each_with seconds.now thirds.now) }
    ensures room { T.room taker.new ≡ T.room taker.old }
{
    for second in seconds {
        list_thirds(p, first, *second, thirds, taker);
    }
}

/// Hands over those of them with this second part too.
fn list_thirds<A: Copy, B: Copy, C: Copy, R: Listed<Site = (A, (B, C))>, T: Taker<R>>(
    p: &Position,
    first: A,
    second: B,
    thirds: &[C],
    taker: &mut T,
)
    requires sites { list_all (λ third. R.is_site p.now (first, (second, third))) thirds.now ≡ true }
    requires room { length (T.taken taker.old) + length (fitting (λ third. R.written (first, (second, third))) p.now thirds.now) ≤ T.room taker.old }
    ensures taken { T.taken taker.new ≡ T.taken taker.old ++ fitting (λ third. R.written (first, (second, third))) p.now thirds.now }
    ensures room { T.room taker.new ≡ T.room taker.old }
{
    for third in thirds {
        take_fitting(p, (first, (second, *third)), taker);
    }
}

/// Hands over the instance that is written with the site, where it fits.
fn take_fitting<R: Listed, T: Taker<R>>(p: &Position, site: R::Site, taker: &mut T)
    requires site { R.is_site p.now site ≡ true }
    requires room { length (T.taken taker.old) + length (if_fits p.now (R.written site)) ≤ T.room taker.old }
    ensures taken { T.taken taker.new ≡ T.taken taker.old ++ if_fits p.now (R.written site) }
    ensures room { T.room taker.new ≡ T.room taker.old }
{
    if let Some(rule) = R::fitting_at(p, site) {
        taker.take(rule);
    }
}

impl<R: Listed, const N: usize> Taker<R> for ArrayVec<R, N> {
    ghost use Rattle.std.specs.Prelude.{map};

    ghost taken = { λ list. map R.instance list.items };

    ghost room = { λ list. N };

    fn take(&mut self, rule: R) {
        self.push(rule);
    }
}
