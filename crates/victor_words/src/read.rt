//! The form that the words of a command line are.
ghost use Rattle.std.specs.Prelude.{◌≡◌, ◌∷◌, map, string_bytes, List, ℕ, IfSome};
ghost use Rattle.victor_words.specs.declared.form.Form.{Form};
ghost use Rattle.victor_words.specs.Words.{IsReadAs, IsWritten, HasRanges};
ghost use Rattle.victor_words.specs.Reading.{shown, form_with, prove_form, bare_form, explain_form, drill_form, annotate_form};
ghost use Rattle.victor_words.specs.Reading.{size_from, follow_form, side_named};

use crate::form::Form;
use crate::found::{Found, found_in};
use crate::options::{FORMAT, FRONT, LAST, NODES, REACH, TABLE};
use board_bits::{Side, Size};
use text_words::number_between;

/// What is said of the written forms where the words are none.
pub const USAGE: &[u8] =
    b"usage: victor prove [--nodes N] [--reach K] [--front F] [--table T] [--format V] | check | play | explain [--reach K] | drill COLS ROWS MOVES SEED GAMES [--nodes N] [--reach K] | upgrade | threat | follow white|black | trim | annotate [--nodes N] [--reach K] [--last L]\n";

/// The most moves that a game made from a number may be given.
const MOST_MOVES: u32 = 100;

/// The largest number that games are made from.
const MOST_SEED: u32 = 2_147_483_646;

/// The most games that are made.
const MOST_GAMES: u32 = 1_000;

/// The form that the words are, and None exactly where they are none.
///
/// The first word is the command. An option is two words `--name value` or one word `--name=value`; options stand in
/// any order, also between the five numbers of `drill`, each at most once. Each number is in decimal, with no sign and
/// no leading zero, and in its range. The words are none where a word is unknown, missing or left over, an option
/// stands twice, in whichever spellings, or the command hasn't that option, and where a number is no such number.
pub fn read_words(words: &[String]) -> Option<Form>
    ensures value { IsReadAs (map string_bytes words.now) result }
    ensures ranges { IfSome result HasRanges }
{
    let [command, rest @ ..] = words else {
        return None;
    };
    form_with(command, &found_in(rest)?)
}

/// A list of words is at most one form.
pub fn a_list_of_words_is_at_most_one_form()
    ensures { (words : List (List ℕ)) (one another : Form)
        → IsWritten words one → IsWritten words another → one ≡ another }
{}

/// The form of a command with what stands behind it; None exactly where the word is no command, or what stands there
/// isn't the command's. Each command has a row here, with the function of its options and its own words.
fn form_with(command: &str, found: &Found) -> Option<Form>
    ensures { result ≡ form_with command.now (shown found.now) }
{
    match command {
        "prove" => prove_form(found),
        "check" => bare_form(Form::Check, found),
        "play" => bare_form(Form::Play, found),
        "explain" => explain_form(found),
        "drill" => drill_form(found),
        "upgrade" => bare_form(Form::Upgrade, found),
        "threat" => bare_form(Form::Threat, found),
        "follow" => follow_form(found),
        "trim" => bare_form(Form::Trim, found),
        "annotate" => annotate_form(found),
        _ => None,
    }
}

fn prove_form(found: &Found) -> Option<Form>
    ensures { result ≡ prove_form (shown found.now) }
{
    let [] = found.own_with(&[NODES, REACH, FRONT, TABLE, FORMAT])? else {
        return None;
    };
    Some(Form::Prove {
        nodes: found.number(&NODES)?,
        reach: found.number(&REACH)?,
        front: found.asked(&FRONT)?,
        table: found.number(&TABLE)?,
        format: found.number(&FORMAT)?,
    })
}

/// The form of a command that has neither options nor words of its own.
fn bare_form(form: Form, found: &Found) -> Option<Form>
    ensures { result ≡ bare_form form (shown found.now) }
{
    let [] = found.own_with(&[])? else {
        return None;
    };
    Some(form)
}

fn explain_form(found: &Found) -> Option<Form>
    ensures { result ≡ explain_form (shown found.now) }
{
    let [] = found.own_with(&[REACH])? else {
        return None;
    };
    Some(Form::Explain {
        reach: found.number(&REACH)?,
    })
}

fn follow_form(found: &Found) -> Option<Form>
    ensures { result ≡ follow_form (shown found.now) }
{
    let [side] = found.own_with(&[])? else {
        return None;
    };
    Some(Form::Follow {
        holder: side_named(side)?,
    })
}

/// The side that a word names.
fn side_named(word: &[u8]) -> Option<Side>
    ensures { result ≡ side_named word.now }
{
    if word == b"white".as_slice() {
        Some(Side::White)
    } else if word == b"black".as_slice() {
        Some(Side::Black)
    } else {
        None
    }
}

fn annotate_form(found: &Found) -> Option<Form>
    ensures { result ≡ annotate_form (shown found.now) }
{
    let [] = found.own_with(&[NODES, REACH, LAST])? else {
        return None;
    };
    Some(Form::Annotate {
        nodes: found.number(&NODES)?,
        reach: found.number(&REACH)?,
        last: found.number(&LAST)?,
    })
}

fn drill_form(found: &Found) -> Option<Form>
    ensures { result ≡ drill_form (shown found.now) }
{
    let [cols, rows, moves, seed, games] = found.own_with(&[NODES, REACH])? else {
        return None;
    };
    Some(Form::Drill {
        size: size_from(cols, rows)?,
        moves: number_between(0, MOST_MOVES, moves)?,
        seed: number_between(1, MOST_SEED, seed)?,
        games: number_between(1, MOST_GAMES, games)?,
        nodes: found.number(&NODES)?,
        reach: found.number(&REACH)?,
    })
}

/// The size of a board with so many columns and rows, and lines of four.
fn size_from(cols: &[u8], rows: &[u8]) -> Option<Size>
    ensures { result ≡ size_from cols.now rows.now }
{
    let cols = number_between(0, u8::MAX as u32, cols)? as u8;
    let rows = number_between(0, u8::MAX as u32, rows)? as u8;
    Size::new(cols, rows).ok()
}
