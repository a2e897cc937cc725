//! Which lemmas of a proof its verdict rests on, with the numbers that they have where no other is left.
ghost use Rattle.std.specs.Prelude.{◌≡◌, ℕ, ◌≤◌, ◌<◌, ◌*◌, ◌^◌, length, map, drop, replicate, false, IfOk};
ghost use Rattle.proof_text.specs.Spelling.{greatest_number};
ghost use Rattle.tool_text.specs.Trim.{numbers_named, numbers_cited, CitesEarlier};
ghost use Rattle.proof_tools.specs.Reach.{mark_at, new_number, reach_of, with_mark, marked, numbers_from, AreWithin, all_passed};
ghost use Rattle.proof_text.specs.Lemma.{ByAll};
ghost use Rattle.proof_book.specs.Entries.{reason_held};
ghost use Rattle.proof_book.specs.Shape.{cite_of};

use proof_book::{Book, Cite, Held, Reason, Verdict};
use std::alloc::{AllocError, Global};
use std::marker::Model;

/// Which lemmas are reached: those that a verdict names, and those that a reached lemma cites.
#[derive(Drop)]
pub struct Reach {
    /// Of each lemma its new number, and 0 where it isn't reached.
    numbers: Vec<u32>,
}

impl Model for Reach {
    ghost use Rattle.std.specs.Prelude.{List, Bool};
    ghost use Rattle.proof_tools.specs.Reach.{reach_kept, IsReach};

    ghost Value = { List Bool };

    ghost view = { λ reach. reach_kept reach.numbers.items };

    ghost invariant = { λ reach. IsReach reach.numbers.items };
}

impl Reach {
    /// Whether the lemma with this number is reached. A number that no lemma has isn't.
    pub fn has(&self, n: u32) -> bool
        ensures { result ≡ mark_at self.now n }
    {
        self.number(n).is_some()
    }

    /// The number that the lemma has among those that are reached, and None exactly where it isn't.
    pub fn number(&self, n: u32) -> Option<u32>
        ensures { result ≡ new_number self.now n }
    {
        if n == 0 {
            return None;
        }
        match self.numbers.get(n as usize - 1) {
            Some(number) if *number > 0 => Some(*number),
            _ => None,
        }
    }
}

/// Which lemmas of a book a verdict rests on.
pub fn reached(alloc: Global, book: &Book, verdict: &Verdict) -> Result<Reach, AllocError>
    requires earlier { CitesEarlier 1 book.now }
    requires named { AreWithin (length book.now) (numbers_named verdict.now) }
    ensures { IfOk result (λ reach. reach ≡ reach_of book.now verdict.now) }
{
    let mut marks = vec![in alloc; false; book.len() as usize]?;
    mark_reached(&mut marks, book, verdict);
    Ok(Reach {
        numbers: numbers_of(alloc, &marks)?,
    })
}

/// Marks what is reached, where nothing is marked.
fn mark_reached(marks: &mut [bool], book: &Book, verdict: &Verdict)
    requires earlier { CitesEarlier 1 book.now }
    requires named { AreWithin (length book.now) (numbers_named verdict.now) }
    requires none { marks.old ≡ replicate (length book.now) false }
    ensures { marks.new ≡ reach_of book.now verdict.now }
{
    mark_named(marks, verdict);
    mark_all(marks, book);
}

/// Marks what the verdict names.
fn mark_named(marks: &mut [bool], verdict: &Verdict)
    requires { AreWithin (length marks.old) (numbers_named verdict.now) }
    ensures { marks.new ≡ marked marks.old (numbers_named verdict.now) }
{
    match verdict {
        Verdict::Win(n) | Verdict::Loss(n) => mark(marks, *n),
        Verdict::Draw(n, m) => {
            mark(marks, *n);
            mark(marks, *m);
        }
        Verdict::Unknown => {}
    }
}

/// Marks the lemma with this number.
fn mark(marks: &mut [bool], n: u32)
    requires from { 1 ≤ n }
    requires to { n ≤ length marks.old }
    ensures { marks.new ≡ with_mark marks.old n }
{
    marks[n as usize - 1] = true;
}

/// The new numbers of those that are marked.
fn numbers_of(alloc: Global, marks: &[bool]) -> Result<Vec<u32>, AllocError>
    requires { length marks.now ≤ greatest_number }
    ensures { IfOk result (λ numbers. numbers.items ≡ numbers_from 0 marks.now) }
{
    let mut numbers = Vec::new(alloc);
    let mut given = 0;
    for is_marked in marks {
        if *is_marked {
            given += 1;
            numbers.push(given)?;
        } else {
            numbers.push(0)?;
        }
    }
    Ok(numbers)
}

/// Marks, from the last lemma back, what each marked lemma cites.
fn mark_all(marks: &mut [bool], book: &Book)
    requires earlier { CitesEarlier 1 book.now }
    requires each { length marks.old ≡ length book.now }
    ensures { marks.new ≡ all_passed marks.old book.now }
{
    let mut n = book.len();
    while n > 0 {
        if marks[n as usize - 1] {
            mark_cited(marks, &book.reason(n));
        }
        n -= 1;
    }
}

/// Marks the lemmas that a reason cites.
fn mark_cited(marks: &mut [bool], reason: &Held<'_>)
    requires { AreWithin (length marks.old) (numbers_cited (reason_held reason.now)) }
    ensures { marks.new ≡ marked marks.old (numbers_cited (reason_held reason.now)) }
{
    match reason {
        Reason::Ended | Reason::Plan(_) => {}
        Reason::One(cite) => mark(marks, cite.lemma),
        Reason::All(cites) => mark_each(marks, cites),
        Reason::Mirror(n) => mark(marks, *n),
    }
}

/// Marks the lemma of each cite.
fn mark_each(marks: &mut [bool], cites: &[Cite])
    requires { AreWithin (length marks.old) (numbers_cited (ByAll (map cite_of cites.now))) }
    ensures { marks.new ≡ marked marks.old (numbers_cited (ByAll (map cite_of cites.now))) }
{
    for cite in cites {
        mark(marks, cite.lemma);
    }
}
