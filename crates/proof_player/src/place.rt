//! Where play stands, and how it goes on.
ghost use Rattle.std.specs.Prelude.{◌≡◌, map, Some, option_map, IfSome};
ghost use Rattle.game_rules.specs.Position.{after_move};
ghost use Rattle.proof_text.specs.Lemma.{ByAll};
ghost use Rattle.proof_book.specs.Shape.{cite_of};
ghost use Rattle.follow_text.specs.Following.{seen, at_lemma, answer_by, answer_to};
ghost use Rattle.proof_player.specs.Playing.{CitesAll};
ghost use Rattle.proof_player.specs.Places.{following, next_of, IsSession, CanAnswer, CanAnswerAt};

use crate::plans::{answer_by_plan, answer_in_plan};
use crate::reasons::{cite_for, own_move, settled};
use crate::seen::seen_column;
use board_bits::{Column, Position};
use proof_book::{Book, Cite, Reason};
use reply_player::Session;

/// Where play stands: at a lemma of the book, or within the play by a plan.
#[derive(Drop)]
pub(crate) enum Place {
    AtLemma(u32),
    InPlan(Session),
}

/// The holder's answer, and where play goes on.
#[derive(Drop)]
pub(crate) struct Next {
    pub(crate) column: Column,
    pub(crate) place: Place,
    pub(crate) turned: bool,
}

/// Answers the other side's move into the column, which doesn't end the game, and changes the place to where play goes on:
/// the column of the answer, and whether the board is turned there.
pub(crate) fn go_on(
    book: &Book,
    place: &mut Place,
    turned: bool,
    before: &Position,
    c: Column,
) -> (Column, bool)
    requires { CanAnswer book.now place.old turned before.now c }
    ensures answer { answer_to book.now (following place.old turned) before.now c ≡ Some (result.0, following place.new result.1) }
    ensures session { IsSession place.new (seen result.1 (after_move (after_move before.now c) result.0)) }
{
    match place {
        Place::InPlan(session) => (answer_in_plan(session, turned, before, c), turned),
        Place::AtLemma(lemma) => {
            let next = answer_at(book, *lemma, turned, before, c).unwrap();
            *place = next.place;
            (next.column, next.turned)
        }
    }
}

/// The answer at a lemma, and None exactly where its reason gives none.
fn answer_at(book: &Book, lemma: u32, turned: bool, before: &Position, c: Column) -> Option<Next>
    requires { CanAnswerAt book.now (at_lemma lemma turned) before.now c }
    ensures answer { option_map next_of result ≡ answer_to book.now (at_lemma lemma turned) before.now c }
    ensures session { IfSome result (λ next. IsSession next.place (seen next.turned (after_move (after_move before.now c) next.column))) }
{
    let (reason, turned) = settled(book, lemma, turned);
    match reason {
        Reason::All(cites) => Some(answer_by_all(book, cites, turned, before, c)),
        Reason::Plan(list) => Some(answer_by_plan(list, turned, before, c)),
        _ => None,
    }
}

/// The answer by the lemma that is cited for the column.
fn answer_by_all(book: &Book, cites: &[Cite], turned: bool, before: &Position, c: Column) -> Next
    requires { CitesAll book.now (map cite_of cites.now) turned before.now c }
    ensures answer { answer_by book.now before.now c (Some (ByAll (map cite_of cites.now), turned)) ≡ Some (next_of result) }
    ensures session { IsSession result.place (seen result.turned (after_move (after_move before.now c) result.column)) }
{
    let there = seen_column(before.size(), turned, c);
    let cite = cite_for(cites, there).unwrap();
    let now = before.after(c);
    let step = own_move(book, &now, cite.lemma, turned).unwrap();
    Next {
        column: step.column,
        place: Place::AtLemma(step.lemma),
        turned: step.turned,
    }
}
