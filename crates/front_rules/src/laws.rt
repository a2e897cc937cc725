//! Laws of the front, each the contract of a function with an empty body.
ghost use Rattle.std.specs.Prelude.{◌≡◌, ℕ, suc, ◌+◌, ◌<◌, ◌≤◌, Bool, true, false, not};
ghost use Rattle.game_rules.specs.Position.{Position};
ghost use Rattle.game_rules.specs.Value.{wins};
ghost use Rattle.game_rules.specs.declared.Side.{Side};
ghost use Rattle.front_rules.specs.Counts.{is_zero, is_infinite, finite_part};
ghost use Rattle.front_rules.specs.Front.{Row, inner, node_count, row_number, node_number, root_number, grown, front_within, is_settled, front, IsGrowing};
ghost use Rattle.front_rules.specs.Path.{IsClean, updated};

/// One expansion changes the nodes on one path alone: where no inner node was settled, the tree whose numbers are computed
/// from scratch after the expansion, and whose settled nodes then become leaves, is the tree in which each node from
/// the leaf up to the root is looked at again and no other. Then no inner node is settled either.
pub fn numbers_change_along_one_path()
    ensures step { (side : Side) (closed : Side → Position → Bool) (tree : Row) → IsClean side tree → grown side closed tree ≡ updated side closed true (root_number side true tree) tree }
    ensures clean { (side : Side) (closed : Side → Position → Bool) (tree : Row) → IsClean side tree → IsClean side (grown side closed tree) }
    ensures front { (side : Side) (closed : Side → Position → Bool) (p : Position) (n : ℕ) → IsClean side (front_within side closed p n) }
{}

/// Where a node's two numbers are as before, so are those of a row in which it stands, and so of each node above. A path
/// may end early there.
pub fn a_path_ends_where_no_number_changed()
    ensures { (side : Side) (p : Position) (kids new rest : Row) → ((proof : Bool) → node_number side proof p new ≡ node_number side proof p kids)
        → (proof smallest : Bool) → row_number side proof smallest (inner p new rest) ≡ row_number side proof smallest (inner p kids rest) }
{}

/// One of a tree's numbers is 0 exactly where the other is infinite.
pub fn one_number_is_zero_where_the_other_is_infinite()
    ensures { (side : Side) (tree : Row) (proof : Bool) → is_zero (row_number side proof true tree) ≡ is_infinite (row_number side (not proof) false tree) }
{}

/// No finite number is greater than the number of nodes.
pub fn a_finite_number_is_at_most_the_number_of_nodes()
    ensures { (side : Side) (row : Row) (proof smallest : Bool) → finite_part (row_number side proof smallest row) ≤ node_count row }
{}

/// A root that is settled tells the answer, where it wasn't settled before an expansion: with a proof number 0 the side
/// wins, and with a disproof number 0 it doesn't. So it is for every set of closed positions at which the side doesn't win,
/// and so for the front with a reach.
pub fn a_settled_root_tells_whether_the_side_wins()
    ensures closed { (side : Side) (closed : Side → Position → Bool) → ((q : Position) → closed side q ≡ true → wins side q ≡ false)
        → (p : Position) (n : ℕ) → ((m : ℕ) → m < n → is_settled side (front_within side closed p m) ≡ false)
        → (proof : Bool) → is_zero (root_number side proof (front_within side closed p n)) ≡ true → wins side p ≡ proof }
    ensures front { (p : Position) (side : Side) (reach n : ℕ) → IsGrowing p side reach n
        → (proof : Bool) → is_zero (root_number side proof (front p side reach n)) ≡ true → wins side p ≡ proof }
{}
