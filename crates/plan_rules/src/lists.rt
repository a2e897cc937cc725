//! Laws of the lists of fitting instances, each the contract of a function with an empty body.
ghost use Rattle.std.specs.Prelude.{◌≡◌, ◌≤◌, true, length, AllPairs};
ghost use Rattle.game_rules.specs.Board.{is_board};
ghost use Rattle.game_rules.specs.Position.{Position, board_of};
ghost use Rattle.plan_rules.specs.Rules.{RuleInstance, kind_of, fits};
ghost use Rattle.plan_rules.specs.Listing.{listed, has_instance, most_listed, Precedes};
ghost use Rattle.plan_rules.specs.declared.Kind.{Kind};

/// An instance that fits is listed among those of its kind, and one that is listed is of that kind and fits.
pub fn what_fits_is_listed()
    ensures listed { (w : RuleInstance) (p : Position) → fits w p ≡ true → has_instance (listed (kind_of w) p) w ≡ true }
    ensures fits { (kind : Kind) (p : Position) (w : RuleInstance) → has_instance (listed kind p) w ≡ true → (kind_of w ≡ kind) × (fits w p ≡ true) }
{}

/// Each list stands in the order of what its instances are written with, and has each instance once.
pub fn lists_stand_in_order()
    ensures { (kind : Kind) (p : Position) → AllPairs Precedes (listed kind p) }
{}

/// No board has more instances of a kind that fit at one position.
pub fn lists_have_room()
    ensures { (kind : Kind) (p : Position) → is_board (board_of p) ≡ true → length (listed kind p) ≤ most_listed kind }
{}
