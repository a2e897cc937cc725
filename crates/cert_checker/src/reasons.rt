//! The tests of a lemma's reason and of a verdict, in the order in which their names are given.
ghost use Rattle.std.specs.Prelude.{◌≡◌, ◌≤◌, map, length};
ghost use Rattle.game_rules.specs.Position.{board_of, open_columns};
ghost use Rattle.proof_text.specs.Lemma.{ByOne, ByAll};
ghost use Rattle.proof_text.specs.Checked.{end_refusal, cites_refusal, move_refusal, list_refusal, reason_refusal, verdict_stands};
ghost use Rattle.proof_lines.specs.Written.{written_list};
ghost use Rattle.proof_lines.specs.Shape.{cite_of, reason_viewed};
ghost use Rattle.cert_checker.specs.Checking.{columns_of, Finds};
ghost use Rattle.plan_rules.specs.declared.TheConstants.{MOST_MEMBERS};

use crate::claims::goes_by_one;
use crate::known::{Known, check_cited, is_shown};
use crate::moves::cites_all;
use crate::stops::Why;
use crate::trail::Reached;
use board_bits::{End, Position};
use proof_lines::{Cite, Instance, Plan, Reason, ReasonView};
use proof_text::{Claim, Verdict};

/// Tests that the reason shows the claim at the position that was reached, by the lemmas known.
#[inline(always)]
pub(crate) fn check_reason(
    known: &Known,
    reached: &Reached,
    claim: Claim,
    reason: &ReasonView<'_>,
) -> Result<(), Why>
    requires { board_of reached.now ≡ known.now.board }
    ensures { Finds result (reason_refusal known.now.shown reached.now claim (reason_viewed reason.now)) }
{
    match reason {
        Reason::Ended => check_end(claim, reached.ended()),
        Reason::One(cite) => check_one(known, reached, claim, *cite),
        Reason::All(cites) => check_all(known, reached, claim, cites.as_slice()),
        Reason::Plan(members) => check_plan(reached, claim, members.as_slice()),
        Reason::Mirror(lemma) => check_cited(known, &reached.position().mirror(), claim, *lemma),
    }
}

fn check_end(claim: Claim, ended: Option<End>) -> Result<(), Why>
    ensures { Finds result (end_refusal claim ended) }
{
    let end = ended.ok_or(Why::WrongPosition)?;
    if claim.holds_at(end) {
        Ok(())
    } else {
        Err(Why::WrongClaim)
    }
}

fn check_one(known: &Known, reached: &Reached, claim: Claim, cite: Cite) -> Result<(), Why>
    requires { board_of reached.now ≡ known.now.board }
    ensures { Finds result (reason_refusal known.now.shown reached.now claim (ByOne (cite_of cite))) }
{
    let position = reached.position();
    let serves = goes_by_one(claim, position.to_move());
    check_moves(reached, serves, position.has_room(cite.column))?;
    check_cited(known, &position.after(cite.column), claim, cite.lemma)
}

fn check_all(known: &Known, reached: &Reached, claim: Claim, cites: &[Cite]) -> Result<(), Why>
    requires { board_of reached.now ≡ known.now.board }
    ensures { Finds result (reason_refusal known.now.shown reached.now claim (ByAll (map cite_of cites.now))) }
{
    let position = reached.position();
    let serves = !goes_by_one(claim, position.to_move());
    check_moves(reached, serves, cites_all(position, cites))?;
    check_cites(known, position, claim, cites)
}

/// Tests that the claim is that White doesn't win, and that the instances are a plan at the position.
fn check_plan(reached: &Reached, claim: Claim, members: &[Instance]) -> Result<(), Why>
    requires { length members.now ≤ MOST_MEMBERS }
    ensures { Finds result (list_refusal reached.now claim (written_list members.now)) }
{
    if claim != Claim::WhiteFails {
        return Err(Why::WrongClaim);
    }
    match Plan::test(reached.position(), members) {
        Ok(()) => Ok(()),
        Err(fault) => Err(Why::BadPlan(fault)),
    }
}

/// Tests each cite from the left, the columns cited being those that have room.
fn check_cites(known: &Known, position: &Position, claim: Claim, cites: &[Cite]) -> Result<(), Why>
    requires board { board_of position.now ≡ known.now.board }
    requires room { columns_of cites.now ≡ open_columns position.now }
    ensures { Finds result (cites_refusal known.now.shown position.now claim (map cite_of cites.now)) }
{
    for cite in cites {
        check_cited(known, &position.after(cite.column), claim, cite.lemma)?;
    }
    Ok(())
}

/// Tests that the claim and the side to move go with the reason, that the game goes on, and that the moves are those
/// that the reason wants.
fn check_moves(reached: &Reached, serves: bool, playable: bool) -> Result<(), Why>
    ensures { Finds result (move_refusal reached.now serves playable) }
{
    if !serves {
        return Err(Why::WrongClaim);
    }
    if reached.ended().is_some() {
        return Err(Why::WrongPosition);
    }
    if !playable {
        return Err(Why::MissingMove);
    }
    Ok(())
}

/// Whether the lemmas that the verdict names show it at the root.
pub(crate) fn verdict_stands(known: &Known, root: &Position, verdict: Verdict) -> bool
    requires { board_of root.now ≡ known.now.board }
    ensures { result ≡ verdict_stands root.now known.now.shown verdict }
{
    match verdict {
        Verdict::Win(lemma) => is_shown(known, root, Claim::of(root.to_move(), true), lemma),
        Verdict::Loss(lemma) => {
            is_shown(known, root, Claim::of(root.to_move().other(), true), lemma)
        }
        Verdict::Draw(white, black) => {
            is_shown(known, root, Claim::WhiteFails, white)
                && is_shown(known, root, Claim::BlackFails, black)
        }
        Verdict::Unknown => true,
    }
}
