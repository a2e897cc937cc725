//! Groups and instances as texts, each in one spelling, and the reading of squares and groups. What each text is and how it
//! is read is defined in `plan_text`.
ghost use Rattle.std.specs.Prelude.{◌≡◌, ◌+◌, ◌≤◌, ◌++◌, is_ok};
ghost use Rattle.arrayvec.specs.ArrayVec.{array_vec_len};
ghost use Rattle.device_rules.specs.Devices.{HasCause, AppendsPrefix};
ghost use Rattle.plan_text.specs.Items.{way_letter, group_text, square_of, way_of, group_of};
ghost use Rattle.plan_text.specs.Faults.{plan_fault_text};
ghost use Rattle.rule_compat.specs.Faults.{fault_of};
ghost use Rattle.plan_lines.specs.Items.{item_text};
ghost use Rattle.text_words.specs.Lines.{line_room};

use crate::instance_text::push_instance;
use arrayvec::ArrayVec;
use game_rules::Way;
use io_ports::{Failed, Sink, put_all};
use open_groups::{GroupId, group_anchor, group_at, group_way};
use rule_compat::{Instance, PlanFault};
use text_words::{LineText, Size, Square, number_between, push_number, push_square, push_text};

/// What a report names: a square, a group, or an instance of a rule.
#[derive(Clone, Copy)]
pub enum Item {
    /// A square.
    OneSquare(Square),
    /// A group.
    OneGroup(GroupId),
    /// An instance of a rule.
    OneInstance(Instance),
}

/// Writes the one text of the item, without a line feed. On `Failed`, which comes only where the sink's count of faults
/// rose, a prefix was written.
pub fn print_item<O: Sink>(item: &Item, out: &mut O) -> Result<(), Failed>
    ensures written { AppendsPrefix (is_ok result) (O.written out.old) (O.written out.new) (item_text item.now) }
    ensures cause { HasCause (O.faults out.old) (O.faults out.new) result }
{
    let mut text = LineText::new();
    match item {
        Item::OneSquare(square) => push_square(&mut text, *square),
        Item::OneGroup(group) => push_group(&mut text, *group),
        Item::OneInstance(instance) => push_instance(&mut text, instance),
    }
    put_all(out, text.as_slice())
}

/// Puts the text of a group behind what is there: its anchor's square and the letter of its direction, as `a1h`.
pub fn push_group<const N: usize>(to: &mut ArrayVec<u8, N>, group: GroupId)
    requires { array_vec_len to.old + 4 ≤ N }
    ensures items { to.new.items ≡ to.old.items ++ group_text group }
    ensures bound { array_vec_len to.new ≤ array_vec_len to.old + 4 }
{
    push_square(to, group_anchor(group));
    to.push(way_letter(group_way(group)));
}

fn way_letter(way: Way) -> u8
    ensures { result ≡ way_letter way }
{
    match way {
        Way::H => b'h',
        Way::V => b'v',
        Way::U => b'u',
        Way::D => b'd',
    }
}

/// Puts the text of the reason for which a list is no plan behind what is there: its name, and with a space before each
/// the numbers of the members, the square or the group that it speaks of.
pub fn push_plan_fault(line: &mut LineText, fault: &PlanFault)
    requires { array_vec_len line.old + 32 ≤ line_room }
    ensures items { line.new.items ≡ line.old.items ++ plan_fault_text (fault_of fault.now) }
    ensures bound { array_vec_len line.new ≤ array_vec_len line.old + 32 }
{
    match fault {
        PlanFault::NotWhiteToMove => push_text(line, b"NotWhiteToMove"),
        PlanFault::Ended => push_text(line, b"Ended"),
        PlanFault::Misfit(member) => {
            push_text(line, b"Misfit ");
            push_number(line, *member);
        }
        PlanFault::Clash(first, second) => {
            push_text(line, b"Clash ");
            push_number(line, *first);
            line.push(b' ');
            push_number(line, *second);
        }
        PlanFault::Uncovered(square) => {
            push_text(line, b"Uncovered ");
            push_square(line, *square);
        }
        PlanFault::Unsupported(member) => {
            push_text(line, b"Unsupported ");
            push_number(line, *member);
        }
        PlanFault::Unanswered(group) => {
            push_text(line, b"Unanswered ");
            push_group(line, *group);
        }
    }
}

/// The square of the board that the bytes spell.
pub(crate) fn square_of(bytes: &[u8], size: Size) -> Option<Square>
    ensures { result ≡ square_of size bytes.now }
{
    let (letter, digits) = bytes.split_first()?;
    let column = size.column_named(*letter)?;
    let row = number_between(1, u32::from(size.rows()), digits)?;
    size.square(column, row as u8)
}

/// The group of the board that the bytes spell.
pub(crate) fn group_of(bytes: &[u8], size: Size) -> Option<GroupId>
    ensures { result ≡ group_of size bytes.now }
{
    let (way, anchor) = bytes.split_last()?;
    let anchor = square_of(anchor, size)?;
    group_at(size, anchor, way_of(*way)?)
}

fn way_of(letter: u8) -> Option<Way>
    ensures { result ≡ way_of letter }
{
    match letter {
        b'h' => Some(Way::H),
        b'v' => Some(Way::V),
        b'u' => Some(Way::U),
        b'd' => Some(Way::D),
        _ => None,
    }
}
