//! Instances of the nine rules as texts, and the reading of such a text: the two letters of the rule, a colon, and the
//! squares or the group that the rule is made of. What each text is and how it is read is defined in `plan_text`.
ghost use Rattle.std.specs.Prelude.{◌≡◌, ◌+◌, ◌≤◌, ◌++◌, codes, length, option_map, option_and_then};
ghost use Rattle.arrayvec.specs.ArrayVec.{array_vec_len};
ghost use Rattle.plan_text.specs.Items.{square_text, marked, column_text, rule_letters, parts_text, instance_text, column_of_squares, two_columns, two_squares, three_squares, group_and_squares, rule_of, of_rule, if_named, instance_of};
ghost use Rattle.rule_compat.specs.Written.{written};

use crate::items::{group_of, push_group, square_of};
use arrayvec::ArrayVec;
use open_groups::GroupId;
use rule_compat::{
    Aftereven, Baseclaim, Baseinverse, Before, Claimeven, Highinverse, Instance, Kind, Lowinverse,
    Rule, Specialbefore, Vertical,
};
use text_words::{Size, Square, push_square, push_text, split_once};

/// Puts the text of an instance behind what is there.
pub(crate) fn push_instance<const N: usize>(to: &mut ArrayVec<u8, N>, instance: &Instance)
    requires { array_vec_len to.old + 18 ≤ N }
    ensures items { to.new.items ≡ to.old.items ++ instance_text (written instance.now) }
    ensures bound { array_vec_len to.new ≤ array_vec_len to.old + 18 }
{
    push_text(to, rule_letters(instance.kind()));
    to.push(b':');
    push_parts(to, instance);
}

fn rule_letters(rule: Kind) -> &'static [u8]
    ensures letters { result.now ≡ rule_letters rule }
    ensures two { length result.now ≡ 2 }
{
    match rule {
        Kind::Claimeven => b"CE",
        Kind::Baseinverse => b"BI",
        Kind::Lowinverse => b"LI",
        Kind::Highinverse => b"HI",
        Kind::Baseclaim => b"BC",
        Kind::Vertical => b"VE",
        Kind::Aftereven => b"AE",
        Kind::Before => b"BE",
        Kind::Specialbefore => b"SB",
    }
}

/// Puts what stands behind the colon: the squares or the group that the instance is made of.
fn push_parts<const N: usize>(to: &mut ArrayVec<u8, N>, instance: &Instance)
    requires { array_vec_len to.old + 15 ≤ N }
    ensures items { to.new.items ≡ to.old.items ++ parts_text (written instance.now) }
    ensures bound { array_vec_len to.new ≤ array_vec_len to.old + 15 }
{
    match instance {
        Instance::Claimeven(rule) => push_square(to, rule.lower()),
        Instance::Baseinverse(rule) => push_pair(to, rule.s(), rule.t()),
        Instance::Lowinverse(rule) => {
            push_column(to, rule.x(), rule.x_top());
            to.push(b',');
            push_column(to, rule.y(), rule.y_top());
        }
        Instance::Highinverse(rule) => push_pair(to, rule.x(), rule.y()),
        Instance::Baseclaim(rule) => {
            push_square(to, rule.a());
            to.push(b',');
            push_pair(to, rule.b(), rule.e());
        }
        Instance::Vertical(rule) => push_square(to, rule.e()),
        Instance::Aftereven(rule) => push_group(to, rule.g()),
        Instance::Before(rule) => push_group(to, rule.g()),
        Instance::Specialbefore(rule) => {
            push_group(to, rule.g());
            to.push(b',');
            push_pair(to, rule.f(), rule.e0());
        }
    }
}

/// Puts two squares with a comma between them.
fn push_pair<const N: usize>(to: &mut ArrayVec<u8, N>, first: Square, second: Square)
    requires { array_vec_len to.old + 7 ≤ N }
    ensures items { to.new.items ≡ to.old.items ++ marked (square_text first) (codes ",") (square_text second) }
    ensures bound { array_vec_len to.new ≤ array_vec_len to.old + 7 }
{
    push_square(to, first);
    to.push(b',');
    push_square(to, second);
}

/// Puts a column from its bottom up to its top.
fn push_column<const N: usize>(to: &mut ArrayVec<u8, N>, bottom: Square, top: Square)
    requires { array_vec_len to.old + 7 ≤ N }
    ensures items { to.new.items ≡ to.old.items ++ column_text bottom top }
    ensures bound { array_vec_len to.new ≤ array_vec_len to.old + 7 }
{
    push_square(to, bottom);
    to.push(b'-');
    push_square(to, top);
}

/// The instance of the board that the bytes spell.
pub(crate) fn instance_of(bytes: &[u8], size: Size) -> Option<Instance>
    ensures { option_map written result ≡ instance_of size bytes.now }
{
    let (letters, parts) = split_once(bytes, b':')?;
    of_rule(rule_of(letters)?, parts, size)
}

/// The rule with these two letters.
fn rule_of(letters: &[u8]) -> Option<Kind>
    ensures { result ≡ rule_of letters.now }
{
    match letters {
        b"CE" => Some(Kind::Claimeven),
        b"BI" => Some(Kind::Baseinverse),
        b"LI" => Some(Kind::Lowinverse),
        b"HI" => Some(Kind::Highinverse),
        b"BC" => Some(Kind::Baseclaim),
        b"VE" => Some(Kind::Vertical),
        b"AE" => Some(Kind::Aftereven),
        b"BE" => Some(Kind::Before),
        b"SB" => Some(Kind::Specialbefore),
        _ => None,
    }
}

/// The instance of the rule from what stands behind the colon, where it is one of the board.
fn of_rule(rule: Kind, parts: &[u8], size: Size) -> Option<Instance>
    ensures { option_map written result ≡ option_and_then (if_named size) (of_rule size rule parts.now) }
{
    size.is_a_board();
    match rule {
        Kind::Claimeven => {
            let lower = square_of(parts, size)?;
            Some(Instance::Claimeven(Claimeven::new(size, lower)?))
        }
        Kind::Baseinverse => {
            let (s, t) = two_squares(parts, size)?;
            Some(Instance::Baseinverse(Baseinverse::new(size, s, t)?))
        }
        Kind::Lowinverse => {
            let ((x, x_top), (y, y_top)) = two_columns(parts, size)?;
            Some(Instance::Lowinverse(Lowinverse::new(size, x, x_top, y, y_top)?))
        }
        Kind::Highinverse => {
            let (x, y) = two_squares(parts, size)?;
            Some(Instance::Highinverse(Highinverse::new(size, x, y)?))
        }
        Kind::Baseclaim => {
            let (a, (b, e)) = three_squares(parts, size)?;
            Some(Instance::Baseclaim(Baseclaim::new(size, a, b, e)?))
        }
        Kind::Vertical => {
            let e = square_of(parts, size)?;
            Some(Instance::Vertical(Vertical::new(size, e)?))
        }
        Kind::Aftereven => Some(Instance::Aftereven(Aftereven::new(group_of(parts, size)?))),
        Kind::Before => Some(Instance::Before(Before::new(group_of(parts, size)?))),
        Kind::Specialbefore => {
            let (g, (f, e0)) = group_and_squares(parts, size)?;
            Some(Instance::Specialbefore(Specialbefore::new(size, g, f, e0)?))
        }
    }
}

/// Two squares with a comma between them.
fn two_squares(bytes: &[u8], size: Size) -> Option<(Square, Square)>
    ensures { result ≡ two_squares size bytes.now }
{
    let (first, second) = split_once(bytes, b',')?;
    Some((square_of(first, size)?, square_of(second, size)?))
}

/// Three squares with commas between them.
fn three_squares(bytes: &[u8], size: Size) -> Option<(Square, (Square, Square))>
    ensures { result ≡ three_squares size bytes.now }
{
    let (first, others) = split_once(bytes, b',')?;
    Some((square_of(first, size)?, two_squares(others, size)?))
}

/// The bottom of a column and its top with a hyphen between them.
fn column_of_squares(bytes: &[u8], size: Size) -> Option<(Square, Square)>
    ensures { result ≡ column_of_squares size bytes.now }
{
    let (bottom, top) = split_once(bytes, b'-')?;
    Some((square_of(bottom, size)?, square_of(top, size)?))
}

/// Two columns with a comma between them.
fn two_columns(bytes: &[u8], size: Size) -> Option<((Square, Square), (Square, Square))>
    ensures { result ≡ two_columns size bytes.now }
{
    let (left, right) = split_once(bytes, b',')?;
    Some((
        column_of_squares(left, size)?,
        column_of_squares(right, size)?,
    ))
}

/// A group and two squares with commas between them.
fn group_and_squares(bytes: &[u8], size: Size) -> Option<(GroupId, (Square, Square))>
    ensures { result ≡ group_and_squares size bytes.now }
{
    let (group, squares) = split_once(bytes, b',')?;
    Some((group_of(group, size)?, two_squares(squares, size)?))
}
