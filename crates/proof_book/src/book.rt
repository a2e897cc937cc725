//! A book of lemmas: all of a proof's lemmas, kept whole for whoever follows it. What lemmas have many of stands in lists of
//! its own, and an entry names its parts of them by place and count. Since lemmas stand behind those that they cite, the
//! path of the next lemma mostly is the last one without its last move; it is then not stored again.
ghost use Rattle.std.specs.Prelude.{◌≡◌, ℕ, ◌+◌, ◌-◌, ◌*◌, ◌^◌, ◌<◌, ◌≤◌, true, List, [], ◌∷◌, ◌++◌, length, take, drop, Some, slice_get, option_map, MatchOption, OnOk, OnErr, IfOk, vec_len, vec_capacity};
ghost use Rattle.proof_text.specs.Lemma.{Lemma as PlainLemma};
ghost use Rattle.proof_text.specs.Spelling.{greatest_number, longest_path};
ghost use Rattle.proof_lines.specs.Shape.{lemma_of, lemma_viewed, reason_viewed};
ghost use Rattle.proof_book.specs.Entries.{part, reason_kept, reason_held, HeldFits, IsReasonWithin, KeepsReason};

use proof_lines::{Cite, Column, Instance, Lemma, LemmaView, Reason, ReasonView, shared_moves};
use proof_text::Claim;
use std::alloc::{AllocError, Global};
use std::marker::Model;

/// A part of a list: how many elements, from which place on.
#[derive(Clone, Copy)]
pub(crate) struct Span {
    pub(crate) at: u32,
    pub(crate) count: u16,
}

/// A reason whose cites and instances are parts of the book's lists.
pub(crate) type Kept = Reason<Span, Span>;

/// A reason whose cites and instances a book lends.
pub type Held<'a> = Reason<&'a [Cite], &'a [Instance]>;

/// A lemma, without its number, which is its place.
#[derive(Clone, Copy)]
pub(crate) struct Entry {
    pub(crate) path_at: u32,
    pub(crate) path_len: u8,
    pub(crate) claim: Claim,
    pub(crate) reason: Kept,
}

/// How many bytes an entry takes.
const _: () = prove!(size_of::<Entry>() == 20);

/// The lemmas of a proof, numbered from 1, at most 10,000,000.
#[derive(Drop)]
pub struct Book {
    entries: Vec<Entry>,
    columns: Vec<Column>,
    cites: Vec<Cite>,
    members: Vec<Instance>,
}

impl Model for Book {
    ghost use Rattle.std.specs.Prelude.{List};
    ghost use Rattle.proof_text.specs.Lemma.{Lemma as PlainLemma};

    ghost Value = { List PlainLemma };

    ghost use Rattle.proof_book.specs.BookFields.{all_kept, IsBook};

    ghost view = { all_kept };

    ghost invariant = { IsBook };
}

impl Book {
    /// A book without a lemma. No memory is taken.
    pub fn new(alloc: Global) -> Book
        ensures { result ≡ [] }
    {
        Book {
            entries: Vec::new(alloc),
            columns: Vec::new(alloc),
            cites: Vec::new(alloc),
            members: Vec::new(alloc),
        }
    }

    /// How many lemmas are kept.
    pub fn len(&self) -> u32
        ensures value { result ≡ length self.now }
        ensures few { length self.now ≤ greatest_number }
    {
        self.entries.len() as u32
    }

    /// Keeps the lemma, which has the next number. Where no memory is found nothing has changed.
    pub fn keep(&mut self, lemma: &Lemma) -> Result<(), AllocError>
        requires few { length self.old < greatest_number }
        requires next { lemma.now.number ≡ length self.old + 1 }
        ensures kept { OnOk result (self.new ≡ self.old ++ lemma_of lemma.now ∷ []) }
        ensures none { OnErr result (self.new ≡ self.old) }
    {
        self.keep_parts(lemma.path.as_slice(), lemma.claim, &lemma.reason.view())
    }

    /// As `keep`, of a lemma that is lent.
    pub fn keep_view(&mut self, lemma: &LemmaView<'_>) -> Result<(), AllocError>
        requires few { length self.old < greatest_number }
        requires next { lemma.now.number ≡ length self.old + 1 }
        ensures kept { OnOk result (self.new ≡ self.old ++ lemma_viewed lemma.now ∷ []) }
        ensures none { OnErr result (self.new ≡ self.old) }
    {
        self.keep_parts(lemma.path.as_slice(), lemma.claim, &lemma.reason)
    }

    /// Keeps a lemma with the next number.
    fn keep_parts(
        &mut self,
        path: &[Column],
        claim: Claim,
        reason: &ReasonView<'_>,
    ) -> Result<(), AllocError>
        requires few { length self.old < greatest_number }
        requires short { length path.now ≤ longest_path }
        ensures kept { OnOk result (self.new ≡ self.old ++ record { number = length self.old + 1; path = path.now; claim = claim; reason = reason_viewed reason.now } ∷ []) }
        ensures none { OnErr result (self.new ≡ self.old) }
    {
        self.entries.try_reserve(1)?;
        self.columns.try_reserve(path.len())?;
        let kept = put_reason(&mut self.cites, &mut self.members, reason)?;
        let path_at = put_path(&mut self.columns, last_path(&self.entries), path);
        self.entries.push_reserved(Entry {
            path_at,
            path_len: path.len() as u8,
            claim,
            reason: kept,
        });
        Ok(())
    }

    /// The moves from the root to the position of the lemma with this number.
    pub fn path(&self, n: u32) -> &[Column]
        requires from { 1 ≤ n }
        requires to { n ≤ length self.now }
        ensures value { option_map (λ (l : PlainLemma). l.path) (slice_get self.now (n - 1)) ≡ Some result.now }
        ensures short { length result.now ≤ longest_path }
    {
        let entry = &self.entries[n as usize - 1];
        part_of(&self.columns, entry.path_at, usize::from(entry.path_len))
    }

    /// What the lemma with this number claims.
    pub fn claim(&self, n: u32) -> Claim
        requires from { 1 ≤ n }
        requires to { n ≤ length self.now }
        ensures { option_map (λ (l : PlainLemma). l.claim) (slice_get self.now (n - 1)) ≡ Some result }
    {
        self.entries[n as usize - 1].claim
    }

    /// Why the claim of the lemma with this number holds.
    pub fn reason(&self, n: u32) -> Held<'_>
        requires from { 1 ≤ n }
        requires to { n ≤ length self.now }
        ensures value { option_map (λ (l : PlainLemma). l.reason) (slice_get self.now (n - 1)) ≡ Some (reason_held result) }
        ensures fits { HeldFits result }
    {
        lend_reason(
            &self.cites,
            &self.members,
            self.entries[n as usize - 1].reason,
        )
    }
}

/// The reason, with its cites and instances lent.
fn lend_reason<'a>(cites: &'a [Cite], members: &'a [Instance], reason: Kept) -> Held<'a>
    requires { IsReasonWithin (length cites.now) (length members.now) reason }
    ensures value { reason_held result ≡ reason_kept cites.now members.now reason }
    ensures fits { HeldFits result }
{
    match reason {
        Reason::Ended => Reason::Ended,
        Reason::One(cite) => Reason::One(cite),
        Reason::All(span) => Reason::All(part_of(cites, span.at, usize::from(span.count))),
        Reason::Plan(span) => Reason::Plan(part_of(members, span.at, usize::from(span.count))),
        Reason::Mirror(lemma) => Reason::Mirror(lemma),
    }
}

/// A part of a list.
fn part_of<T>(items: &[T], at: u32, count: usize) -> &[T]
    requires { at + count ≤ length items.now }
    ensures { result.now ≡ part items.now at count }
{
    &items[at as usize..at as usize + count]
}

/// Keeps the cites or the instances of a reason. Where no memory is found both lists are as before.
fn put_reason(
    cites: &mut Vec<Cite>,
    members: &mut Vec<Instance>,
    reason: &ReasonView<'_>,
) -> Result<Kept, AllocError>
    requires cites { length cites.old.items < 2 ^ 32 }
    requires members { length members.old.items < 2 ^ 32 }
    ensures put { IfOk result (KeepsReason cites.old.items members.old.items cites.new.items members.new.items (reason_viewed reason.now)) }
    ensures none { OnErr result ((cites.new.items ≡ cites.old.items) × (members.new.items ≡ members.old.items)) }
{
    match reason {
        Reason::Ended => Ok(Reason::Ended),
        Reason::One(cite) => Ok(Reason::One(*cite)),
        Reason::All(all) => Ok(Reason::All(put_run(cites, all.as_slice())?)),
        Reason::Plan(list) => Ok(Reason::Plan(put_run(members, list.as_slice())?)),
        Reason::Mirror(lemma) => Ok(Reason::Mirror(*lemma)),
    }
}

/// Appends a run of elements. Where no memory is found the list is as before.
fn put_run<T: Copy>(items: &mut Vec<T>, run: &[T]) -> Result<Span, AllocError>
    requires few { length items.old.items < 2 ^ 32 }
    requires short { length run.now < 2 ^ 16 }
    ensures put { IfOk result (λ span. (span.at ≡ length items.old.items) × (span.count ≡ length run.now)) }
    ensures more { OnOk result (items.new.items ≡ items.old.items ++ run.now) }
    ensures none { OnErr result (items.new.items ≡ items.old.items) }
{
    let at = items.len() as u32;
    items.extend_from_slice(run)?;
    Ok(Span {
        at,
        count: run.len() as u16,
    })
}

/// Where the path of the last lemma stands, or 0.
fn last_path(entries: &[Entry]) -> u32
    ensures { MatchOption (slice_get entries.now (length entries.now - 1)) (result ≡ 0) (λ entry. result ≡ entry.path_at) }
{
    match entries.last() {
        Some(entry) => entry.path_at,
        None => 0,
    }
}

/// The place at which the path stands: the one given, or behind all others, where there is room for it.
fn put_path(columns: &mut Vec<Column>, last: u32, path: &[Column]) -> u32
    requires few { length columns.old.items < 2 ^ 32 }
    requires room { vec_len columns.old + length path.now ≤ vec_capacity columns.old }
    ensures within { result + length path.now ≤ length columns.new.items }
    ensures put { part columns.new.items result (length path.now) ≡ path.now }
    ensures more { (more : List ℕ) × (columns.new.items ≡ columns.old.items ++ more) × (length more ≤ length path.now) }
{
    if stands_at(columns, last, path) {
        return last;
    }
    let at = columns.len() as u32;
    let _full = columns.extend_from_slice(path);
    at
}

/// Whether the path stands at this place.
fn stands_at(columns: &[Column], at: u32, path: &[Column]) -> bool
    ensures within { result ≡ true → at + length path.now ≤ length columns.now }
    ensures same { result ≡ true → part columns.now at (length path.now) ≡ path.now }
{
    let at = at as usize;
    at <= columns.len()
        && path.len() <= columns.len() - at
        && shared_moves(&columns[at..at + path.len()], path) == path.len()
}
