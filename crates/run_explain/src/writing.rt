//! What is written of a position: the plan that is chosen there, with the squares that each instance owns and with the
//! instance that answers each group of White's.
ghost use Rattle.std.specs.Prelude.{◌≡◌, ◌∷◌, [], ◌++◌, true, ◌≤◌, length, is_ok, flat_map, IfOk};
ghost use Rattle.device_rules.specs.Devices.{HasCause, AppendsPrefix};
ghost use Rattle.game_rules.specs.Groups.{groups_of, lies_on};
ghost use Rattle.game_rules.specs.Position.{board_of};
ghost use Rattle.plan_rules.specs.Plan.{is_plan};
ghost use Rattle.plan_text.specs.Items.{square_text};
ghost use Rattle.plan_text.specs.PlanLine.{plan_text};
ghost use Rattle.proof_text.specs.Spelling.{as_line};
ghost use Rattle.plan_lines.specs.Written.{written, written_list};
ghost use Rattle.plan_lines.specs.Planned.{members};
ghost use Rattle.walk_rules.specs.Walk.{solved, is_given};
ghost use Rattle.rule_chooser.specs.Shown.{shown, IsOf};
ghost use Rattle.explain_text.specs.Explanation.{squares_text, owns_line, owns_lines, answer_lines, plan_explained, chosen_text, explanation};

use board_bits::{Position, Square};
use io_ports::{Failed, Sink, put_all};
use open_groups::{GroupId, groups};
use plan_lines::{Instance, Item, Plan, print_item, print_plan};
use rule_chooser::{Choice, choose};
use rule_law::Rule;
use run_frame::put_line;

/// Writes what is chosen at a position, and answers whether that is a plan.
pub(crate) fn write_choice<O: Sink>(
    position: &Position,
    reach: u32,
    out: &mut O,
) -> Result<bool, Failed>
    ensures found { IfOk result (λ found. found ≡ solved position.now reach) }
    ensures written { AppendsPrefix (is_ok result) (O.written out.old) (O.written out.new) (explanation position.now reach) }
    ensures cause { HasCause (O.faults out.old) (O.faults out.new) result }
{
    let choice = choose(position, reach);
    write_chosen(position, &choice, out)
}

/// Writes a choice that was made at a position, and answers whether it is a plan.
fn write_chosen<O: Sink>(position: &Position, choice: &Choice, out: &mut O) -> Result<bool, Failed>
    requires { IsOf position.now choice.now }
    ensures found { IfOk result (λ found. found ≡ is_given (shown choice.now)) }
    ensures written { AppendsPrefix (is_ok result) (O.written out.old) (O.written out.new) (chosen_text position.now (shown choice.now)) }
    ensures cause { HasCause (O.faults out.old) (O.faults out.new) result }
{
    match choice {
        Choice::Gave(plan) => {
            write_plan(plan, out)?;
            Ok(true)
        }
        Choice::NoPlan => {
            put_line(out, b"no plan\n")?;
            Ok(false)
        }
        Choice::Spent => {
            put_line(out, b"no plan within reach\n")?;
            Ok(false)
        }
    }
}

/// Writes the line of a plan, a line for each instance, and one for each group of White's.
fn write_plan<O: Sink>(plan: &Plan, out: &mut O) -> Result<(), Failed>
    ensures written { AppendsPrefix (is_ok result) (O.written out.old) (O.written out.new) (plan_explained plan.now.at (members plan.now)) }
    ensures cause { HasCause (O.faults out.old) (O.faults out.new) result }
{
    write_members(plan, out)?;
    let groups = groups(plan.at().size());
    write_answers(plan, groups.as_slice(), out)?;
    out.flush()
}

/// Writes the line of a plan, and a line for each instance.
fn write_members<O: Sink>(plan: &Plan, out: &mut O) -> Result<(), Failed>
    ensures written { AppendsPrefix (is_ok result) (O.written out.old) (O.written out.new) (as_line (plan_text (members plan.now)) ++ owns_lines (members plan.now)) }
    ensures cause { HasCause (O.faults out.old) (O.faults out.new) result }
{
    plan.at().has_a_board();
    print_plan(plan.list(), out)?;
    write_zones(plan.list(), out)
}

/// Writes a line for each instance, with the squares that it owns.
fn write_zones<O: Sink>(list: &[Instance], out: &mut O) -> Result<(), Failed>
    ensures written { AppendsPrefix (is_ok result) (O.written out.old) (O.written out.new) (owns_lines (written_list list.now)) }
    ensures cause { HasCause (O.faults out.old) (O.faults out.new) result }
{
    for instance in list {
        write_zone(instance, out)?;
    }
    Ok(())
}

/// Writes an instance and the squares that it owns.
fn write_zone<O: Sink>(instance: &Instance, out: &mut O) -> Result<(), Failed>
    ensures written { AppendsPrefix (is_ok result) (O.written out.old) (O.written out.new) (owns_line (written instance.now)) }
    ensures cause { HasCause (O.faults out.old) (O.faults out.new) result }
{
    print_item(&Item::OneInstance(*instance), out)?;
    put_all(out, b" owns")?;
    write_squares(instance.zone().squares().as_slice(), out)?;
    put_all(out, b"\n")
}

/// Writes each square with a space before it, in square order, and a hyphen where there is none.
fn write_squares<O: Sink>(squares: &[Square], out: &mut O) -> Result<(), Failed>
    ensures written { AppendsPrefix (is_ok result) (O.written out.old) (O.written out.new) (squares_text squares.now) }
    ensures cause { HasCause (O.faults out.old) (O.faults out.new) result }
{
    if squares.is_empty() {
        put_all(out, b" -")
    } else {
        write_each_square(squares, out)
    }
}

/// Writes each square with a space before it.
fn write_each_square<O: Sink>(squares: &[Square], out: &mut O) -> Result<(), Failed>
    ensures written { AppendsPrefix (is_ok result) (O.written out.old) (O.written out.new) (flat_map (λ u. 32 ∷ square_text u) squares.now) }
    ensures cause { HasCause (O.faults out.old) (O.faults out.new) result }
{
    for square in squares {
        write_square(*square, out)?;
    }
    Ok(())
}

/// Writes a square with a space before it.
fn write_square<O: Sink>(square: Square, out: &mut O) -> Result<(), Failed>
    ensures written { AppendsPrefix (is_ok result) (O.written out.old) (O.written out.new) (32 ∷ square_text square) }
    ensures cause { HasCause (O.faults out.old) (O.faults out.new) result }
{
    put_all(out, b" ")?;
    print_item(&Item::OneSquare(square), out)
}

/// Writes a line for each group of White's, with the instance that answers it. The groups are those of the plan's board.
fn write_answers<O: Sink>(plan: &Plan, groups: &[GroupId], out: &mut O) -> Result<(), Failed>
    requires { groups.now ≡ groups_of (board_of plan.now.at) }
    ensures written { AppendsPrefix (is_ok result) (O.written out.old) (O.written out.new) (answer_lines plan.now.at (members plan.now) groups.now) }
    ensures cause { HasCause (O.faults out.old) (O.faults out.new) result }
{
    for group in groups {
        write_answer(plan, *group, out)?;
    }
    Ok(())
}

/// Writes a group of White's and the instance that answers it; nothing where the group has a man of Black's.
fn write_answer<O: Sink>(plan: &Plan, group: GroupId, out: &mut O) -> Result<(), Failed>
    requires { lies_on (board_of plan.now.at) group ≡ true }
    ensures written { AppendsPrefix (is_ok result) (O.written out.old) (O.written out.new) (answer_lines plan.now.at (members plan.now) (group ∷ [])) }
    ensures cause { HasCause (O.faults out.old) (O.faults out.new) result }
{
    let Some(place) = plan.answered_by(group) else {
        return Ok(());
    };
    print_item(&Item::OneGroup(group), out)?;
    put_all(out, b" by ")?;
    let member = plan.list()[place as usize - 1];
    print_item(&Item::OneInstance(member), out)?;
    put_all(out, b"\n")
}
