//! Answers by a plan, on the board as it lies or turned round.
ghost use Rattle.std.specs.Prelude.{◌≡◌, ◌≤◌, true, length, Some};
ghost use Rattle.game_rules.specs.Position.{is_legal, after_move};
ghost use Rattle.plan_rules.specs.Plan.{is_plan};
ghost use Rattle.plan_rules.specs.declared.TheConstants.{MOST_MEMBERS};
ghost use Rattle.proof_book.specs.Planned.{members};
ghost use Rattle.proof_book.specs.Written.{written_list};
ghost use Rattle.follow_text.specs.Following.{seen, in_plan, plan_move};
ghost use Rattle.proof_player.specs.Places.{next_of, IsSession, column_in};

use crate::place::{Next, Place};
use crate::seen::{seen, seen_column};
use board_bits::{Column, Position};
use proof_book::{Instance, Plan};
use reply_player::{Reply, Session};

/// The first answer by a plan, which begins at the position as it is seen.
pub(crate) fn answer_by_plan(list: &[Instance], turned: bool, before: &Position, c: Column) -> Next
    requires few { length list.now ≤ MOST_MEMBERS }
    requires plan { is_plan (seen turned before.now) (written_list list.now) ≡ true }
    requires legal { is_legal before.now c ≡ true }
    ensures answer { plan_move (written_list list.now) turned before.now c ≡ Some (next_of result) }
    ensures session { IsSession result.place (seen result.turned (after_move (after_move before.now c) result.column)) }
{
    let plan = Plan::check(&seen(before, turned), list).unwrap();
    let mut session = Session::new(plan);
    let column = answer_in_plan(&mut session, turned, before, c);
    Next {
        column,
        place: Place::InPlan(session),
        turned,
    }
}

/// The answer by a plan under way, which stands at the position as it is seen.
pub(crate) fn answer_in_plan(
    session: &mut Session,
    turned: bool,
    before: &Position,
    c: Column,
) -> Column
    requires stands { session.old.stands ≡ seen turned before.now }
    requires legal { is_legal before.now c ≡ true }
    ensures plan { session.new.plan ≡ session.old.plan }
    ensures answer { plan_move (members session.old.plan) turned before.now c ≡ Some (result, in_plan (members session.old.plan) turned) }
    ensures stands { session.new.stands ≡ seen turned (after_move (after_move before.now c) result) }
{
    let size = before.size();
    let reply = session.answer(seen_column(size, turned, c)).unwrap();
    seen_column(size, turned, column_of(reply))
}

/// The column of Black's man.
fn column_of(reply: Reply) -> Column
    ensures { result ≡ column_in reply }
{
    match reply {
        Reply::BlackWon(column) | Reply::Filled(column) | Reply::Move(column) => column,
    }
}
