//! Lines of plans: the reading of their instances into a list that is lent, since a list has room for 300 of them, and
//! the writing piece by piece, so that no call has room for a whole line.
ghost use Rattle.std.specs.Prelude.{◌≡◌, ◌≤◌, [], ◌∷◌, ◌++◌, Some, None, MatchResult, is_ok, length, option_map};
ghost use Rattle.device_rules.specs.Devices.{HasCause, AppendsPrefix};
ghost use Rattle.proof_text.specs.Spelling.{as_line};
ghost use Rattle.plan_text.specs.Words.{words_of};
ghost use Rattle.plan_text.specs.PlanLine as plans;
ghost use Rattle.plan_text.specs.PlanLine.{plan_text};
ghost use Rattle.plan_text.specs.Items.{instance_text};
ghost use Rattle.rule_compat.specs.Written.{written, written_list};
ghost use Rattle.plan_lines.specs.Items.{members_text};
ghost use Rattle.plan_rules.specs.declared.TheConstants.{MOST_MEMBERS};

use crate::instance_text::{instance_of, push_instance};
use arrayvec::ArrayVec;
use io_ports::{Failed, Sink, put_all};
use plan_rules::MOST_MEMBERS;
use rule_compat::Instance;
use text_words::{Size, split_word};

/// The bytes are no line of a plan, or of a proof.
#[derive(Clone, Copy, Debug, PartialEq, Eq)]
pub struct LineFault;

/// Room for the text of an instance with the space before it.
const MEMBER_ROOM: usize = 19;

/// The instances of the plan line that the bytes are on a board of this size, without their line feed: the word `plan`
/// and 1 to 300 instances of the board, with a single space between each two words. `LineFault` comes exactly where the
/// bytes are no such line. How instances are spelled is this project's own choice.
pub fn read_plan(bytes: &[u8], size: Size) -> Result<ArrayVec<Instance, MOST_MEMBERS>, LineFault>
    ensures { MatchResult result (λ list. plans.read_plan size bytes.now ≡ Some (written_list list.items)) (λ fault. plans.read_plan size bytes.now ≡ None) }
{
    let members = bytes.strip_prefix(b"plan ").ok_or(LineFault)?;
    let mut list = ArrayVec::new();
    members_of(members, size, &mut list).ok_or(LineFault)?;
    Ok(list)
}

/// Reads 1 to 300 instances of the board with a single space between each two into this list, in place of what it has.
/// None comes exactly where the bytes are no such instances; what the list has then is left open.
pub fn members_of(
    bytes: &[u8],
    size: Size,
    list: &mut ArrayVec<Instance, MOST_MEMBERS>,
) -> Option<()>
    ensures { option_map (λ _. written_list list.new.items) result ≡ plans.members_of size (words_of bytes.now) }
{
    list.clear();
    let mut left = Some(bytes);
    while let Some(words) = left {
        if list.is_full() {
            return None;
        }
        let (word, rest) = split_word(words);
        list.push(instance_of(word, size)?);
        left = rest;
    }
    Some(())
}

/// Writes the line of these instances, with its line feed. It is read again as it was where they are instances of one
/// board. On `Failed`, which comes only where the sink's count of faults rose, a prefix was written.
pub fn print_plan<O: Sink>(list: &[Instance], out: &mut O) -> Result<(), Failed>
    requires some { 1 ≤ length list.now }
    requires few { length list.now ≤ MOST_MEMBERS }
    ensures written { AppendsPrefix (is_ok result) (O.written out.old) (O.written out.new) (as_line (plan_text (written_list list.now))) }
    ensures cause { HasCause (O.faults out.old) (O.faults out.new) result }
{
    put_all(out, b"plan")?;
    put_plan_end(list, out)
}

/// Writes what stands behind the first word of a plan: its members, with a space before each, and the line feed. On
/// `Failed`, which comes only where the sink's count of faults rose, a prefix was written.
pub fn put_plan_end<O: Sink>(members: &[Instance], out: &mut O) -> Result<(), Failed>
    ensures written { AppendsPrefix (is_ok result) (O.written out.old) (O.written out.new) (members_text (written_list members.now) ++ 10 ∷ []) }
    ensures cause { HasCause (O.faults out.old) (O.faults out.new) result }
{
    put_members(members, out)?;
    put_all(out, b"\n")
}

/// Writes each instance with a space before it.
fn put_members<O: Sink>(list: &[Instance], out: &mut O) -> Result<(), Failed>
    ensures written { AppendsPrefix (is_ok result) (O.written out.old) (O.written out.new) (members_text (written_list list.now)) }
    ensures cause { HasCause (O.faults out.old) (O.faults out.new) result }
{
    for instance in list {
        put_member(instance, out)?;
    }
    Ok(())
}

/// Writes an instance with a space before it.
fn put_member<O: Sink>(instance: &Instance, out: &mut O) -> Result<(), Failed>
    ensures written { AppendsPrefix (is_ok result) (O.written out.old) (O.written out.new) (32 ∷ instance_text (written instance.now)) }
    ensures cause { HasCause (O.faults out.old) (O.faults out.new) result }
{
    let mut text: ArrayVec<u8, MEMBER_ROOM> = ArrayVec::new();
    text.push(b' ');
    push_instance(&mut text, instance);
    put_all(out, text.as_slice())
}
