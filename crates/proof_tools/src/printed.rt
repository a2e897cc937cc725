//! The text of a proof that has those lemmas alone on which its verdict rests.
ghost use Rattle.std.specs.Prelude.{◌≡◌, ◌+◌, ◌-◌, ◌≤◌, ◌<◌, true, map, length, is_ok, Some, slice_get, OnOk};
ghost use Rattle.std.specs.List.{AllByRecursion};
ghost use Rattle.device_rules.specs.Devices.{HasCause, AppendsPrefix};
ghost use Rattle.proof_text.specs.Lemma.{Lemma, ByAll};
ghost use Rattle.proof_text.specs.Spelling.{lines_of, most_cites, greatest_number};
ghost use Rattle.plan_rules.specs.declared.TheConstants.{MOST_MEMBERS};
ghost use Rattle.proof_book.specs.Shape.{cite_of, reason_of};
ghost use Rattle.proof_book.specs.Entries.{reason_held, HeldFits};
ghost use Rattle.tool_text.specs.Trim.{numbers_named, numbers_cited, CitesEarlier, rank, renumbered_cite, renumbered_reason, renumbered_verdict, kept_lemmas, trimmed_lines};
ghost use Rattle.proof_tools.specs.Reach.{mark_at, reach_of, AreWithin};
ghost use Rattle.proof_tools.specs.Printed.{AreMarked, IsClosedReach, lines_at};

use crate::reach::Reach;
use arrayvec::ArrayVec;
use board_bits::MOST_COLS;
use cert_format::{LemmaOut, LemmaWriter, Line, Verdict, print_line};
use io_ports::{Failed, Sink};
use plan_rules::MOST_MEMBERS;
use proof_book::{Book, Cite, Held, Instance, Reason};

/// Writes the lemmas of a book that are reached, in their order, numbered from 1, with their cites numbered so too, and
/// behind them the line of the verdict. The `Reach` is the one that was made for this book and this verdict. On `Failed`,
/// which comes only where the sink's count of faults rose, a prefix was written.
pub fn print_trimmed<O: Sink>(
    book: &Book,
    reach: &Reach,
    verdict: &Verdict,
    out: &mut O,
) -> Result<(), Failed>
    requires earlier { CitesEarlier 1 book.now }
    requires named { AreWithin (length book.now) (numbers_named verdict.now) }
    requires made { reach.now ≡ reach_of book.now verdict.now }
    ensures written { AppendsPrefix (is_ok result) (O.written out.old) (O.written out.new) (trimmed_lines book.now verdict.now) }
    ensures cause { HasCause (O.faults out.old) (O.faults out.new) result }
{
    print_reached(book, reach, out)?;
    let verdict = verdict_anew(verdict, reach);
    print_line(&Line::Verdict(verdict), out)
}

/// Writes the lemmas that are reached.
fn print_reached<O: Sink>(book: &Book, reach: &Reach, out: &mut O) -> Result<(), Failed>
    requires earlier { CitesEarlier 1 book.now }
    requires closed { IsClosedReach reach.now book.now }
    ensures written { AppendsPrefix (is_ok result) (O.written out.old) (O.written out.new) (lines_of (kept_lemmas (mark_at reach.now) book.now)) }
    ensures cause { HasCause (O.faults out.old) (O.faults out.new) result }
{
    let mut lemmas = LemmaOut::new();
    let mut n = 0;
    while n < book.len() {
        n += 1;
        put_reached(&mut lemmas, book, reach, n, out)?;
    }
    Ok(())
}

/// Puts the lemma with this number, where it is reached, behind those before it that are.
fn put_reached<O: Sink>(
    lemmas: &mut LemmaOut,
    book: &Book,
    reach: &Reach,
    n: u32,
    out: &mut O,
) -> Result<(), Failed>
    requires from { 1 ≤ n }
    requires to { n ≤ length book.now }
    requires earlier { CitesEarlier 1 book.now }
    requires closed { IsClosedReach reach.now book.now }
    requires few { length book.now ≤ greatest_number }
    requires counted { lemmas.old ≡ rank (mark_at reach.now) (n - 1) }
    ensures written { AppendsPrefix (is_ok result) (O.written out.old) (O.written out.new) (lines_at (mark_at reach.now) book.now (n - 1)) }
    ensures counted { OnOk result (lemmas.new ≡ rank (mark_at reach.now) n) }
    ensures cause { HasCause (O.faults out.old) (O.faults out.new) result }
{
    if reach.has(n) {
        let reason = reason_anew(&book.reason(n), reach);
        lemmas.put(out, book.path(n), book.claim(n), &reason.view())?;
    }
    Ok(())
}

/// A reason with its cites numbered anew, all of which are reached.
fn reason_anew(reason: &Held<'_>, reach: &Reach) -> Reason
    requires fits { HeldFits reason.now }
    requires marked { AreMarked reach.now (numbers_cited (reason_held reason.now)) }
    ensures { reason_of result ≡ renumbered_reason (rank (mark_at reach.now)) (reason_held reason.now) }
{
    match reason {
        Reason::Ended => Reason::Ended,
        Reason::One(cite) => Reason::One(cite_anew(*cite, reach)),
        Reason::All(cites) => Reason::All(cites_anew(cites, reach)),
        Reason::Plan(members) => Reason::Plan(members_of(members)),
        Reason::Mirror(n) => Reason::Mirror(number_anew(*n, reach)),
    }
}

/// Cites that are numbered anew.
fn cites_anew(cites: &[Cite], reach: &Reach) -> ArrayVec<Cite, MOST_COLS>
    requires few { length cites.now ≤ most_cites }
    requires marked { AreMarked reach.now (numbers_cited (ByAll (map cite_of cites.now))) }
    ensures { map cite_of result.items ≡ map (renumbered_cite (rank (mark_at reach.now))) (map cite_of cites.now) }
{
    let mut anew = ArrayVec::new();
    for cite in cites {
        anew.push(cite_anew(*cite, reach));
    }
    anew
}

/// A cite that is numbered anew.
fn cite_anew(cite: Cite, reach: &Reach) -> Cite
    requires { mark_at reach.now cite.lemma ≡ true }
    ensures { cite_of result ≡ renumbered_cite (rank (mark_at reach.now)) (cite_of cite) }
{
    Cite {
        column: cite.column,
        lemma: number_anew(cite.lemma, reach),
    }
}

/// The instances of a plan.
fn members_of(members: &[Instance]) -> ArrayVec<Instance, MOST_MEMBERS>
    requires { length members.now ≤ MOST_MEMBERS }
    ensures { result.items ≡ members.now }
{
    let mut list = ArrayVec::new();
    // the requirement says that they fit
    let _ = list.try_extend_from_slice(members);
    list
}

/// The verdict with its numbers anew.
fn verdict_anew(verdict: &Verdict, reach: &Reach) -> Verdict
    requires { AreMarked reach.now (numbers_named verdict.now) }
    ensures { result ≡ renumbered_verdict (rank (mark_at reach.now)) verdict.now }
{
    match verdict {
        Verdict::Win(n) => Verdict::Win(number_anew(*n, reach)),
        Verdict::Loss(n) => Verdict::Loss(number_anew(*n, reach)),
        Verdict::Draw(n, m) => Verdict::Draw(number_anew(*n, reach), number_anew(*m, reach)),
        Verdict::Unknown => Verdict::Unknown,
    }
}

/// The new number of a lemma that is reached.
fn number_anew(n: u32, reach: &Reach) -> u32
    requires { mark_at reach.now n ≡ true }
    ensures { result ≡ rank (mark_at reach.now) n }
{
    match reach.number(n) {
        Some(number) => number,
        None => unreachable!(),
    }
}
