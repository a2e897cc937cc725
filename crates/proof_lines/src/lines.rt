//! What a line of a proof says. A lemma stands at the position that its path leads to from the root of the proof, and
//! names the earlier lemmas that its claim rests on.
ghost use Rattle.std.specs.Prelude.{◌≡◌, List};
ghost use Rattle.plan_rules.specs.Rules.{RuleInstance};
ghost use Rattle.proof_text.specs.Lemma.{Cite as PlainCite};
ghost use Rattle.proof_text.specs.Texts.{first_line};
ghost use Rattle.proof_lines.specs.Shape.{reason_by, reason_of, reason_viewed, lemma_of, lemma_viewed};

use arrayvec::ArrayVec;
use board_bits::Column;
use plan_rules::MOST_MEMBERS;
use proof_text::{Claim, Verdict, Version};
use rule_compat::Instance;

/// No line has more bytes, without its line feed.
pub const LONGEST_LINE: usize = 8192;

/// No path is longer: a board has at most a hundred squares.
pub const LONGEST_PATH: usize = 100;

/// No reason cites more lemmas: a board has at most ten columns.
pub const MOST_CITES: usize = 10;

/// The first line of a proof of this version, which names the format.
pub fn first_line(version: Version) -> &'static [u8]
    ensures { result.now ≡ first_line version }
{
    match version {
        Version::One => b"victor 1",
        Version::Two => b"victor 2",
    }
}

/// A move, and the number of the lemma that stands at the position after it.
#[derive(Clone, Copy, Default)]
pub struct Cite {
    pub column: Column,
    pub lemma: u32,
}

/// Why a lemma's claim holds. `C` has the cites of `All`, and `P` the instances of `Plan`.
#[derive(Clone, Copy, Drop)]
pub enum Reason<C = ArrayVec<Cite, MOST_CITES>, P = ArrayVec<Instance, MOST_MEMBERS>> {
    /// The game has ended, and the claim is true of its end.
    Ended,
    /// One move shows it.
    One(Cite),
    /// All moves together show it.
    All(C),
    /// The instances are a plan of Black's, by which White doesn't win.
    Plan(P),
    /// The lemma with this number shows it of the mirror image of the position. Proofs of the first version have no such
    /// reason.
    Mirror(u32),
}

/// A reason whose cites and instances stay where they are, so that a reason is small to hand on.
pub type ReasonView<'a> = Reason<
    &'a ArrayVec<Cite, MOST_CITES>,
    &'a ArrayVec<Instance, MOST_MEMBERS>,
>;

/// Which reason it is. Its cites, or the instances of its plan, are elsewhere.
pub type ReasonKind = Reason<(), ()>;

impl Reason {
    /// The same reason, lent.
    pub fn view(&self) -> ReasonView<'_>
        ensures { reason_viewed result ≡ reason_of self.now }
    {
        match self {
            Reason::Ended => Reason::Ended,
            Reason::One(cite) => Reason::One(*cite),
            Reason::All(cites) => Reason::All(cites),
            Reason::Plan(members) => Reason::Plan(members),
            Reason::Mirror(lemma) => Reason::Mirror(*lemma),
        }
    }
}

impl ReasonKind {
    /// The reason of this kind that has these cites, or these instances.
    #[inline(always)]
    pub fn with<C: Drop, P: Drop>(self, cites: C, members: P) -> Reason<C, P>
        ensures { (cites_in : C → List PlainCite) (members_in : P → List RuleInstance)
            → reason_by cites_in members_in result ≡ reason_by (λ _. cites_in cites) (λ _. members_in members) self }
    {
        match self {
            Reason::Ended => Reason::Ended,
            Reason::One(cite) => Reason::One(cite),
            Reason::All(()) => Reason::All(cites),
            Reason::Plan(()) => Reason::Plan(members),
            Reason::Mirror(lemma) => Reason::Mirror(lemma),
        }
    }
}

/// A lemma of a proof: its number, its position as the moves from the root, and what it claims there and why.
#[derive(Drop)]
pub struct Lemma {
    pub number: u32,
    pub path: ArrayVec<Column, LONGEST_PATH>,
    pub claim: Claim,
    pub reason: Reason,
}

impl Lemma {
    /// The same lemma, lent.
    pub fn view(&self) -> LemmaView<'_>
        ensures { lemma_viewed result ≡ lemma_of self.now }
    {
        LemmaView {
            number: self.number,
            path: &self.path,
            claim: self.claim,
            reason: self.reason.view(),
        }
    }
}

/// A lemma whose path and reason stay where they are.
#[derive(Clone, Copy)]
pub struct LemmaView<'a> {
    pub number: u32,
    pub path: &'a ArrayVec<Column, LONGEST_PATH>,
    pub claim: Claim,
    pub reason: ReasonView<'a>,
}

/// A line of a proof behind its game.
#[derive(Drop)]
pub enum Line {
    /// A lemma.
    Lemma(Lemma),
    /// A line for the reader, which says nothing.
    Remark,
    /// The verdict, with which a proof ends.
    Verdict(Verdict),
}

/// What a line says. The parts of a lemma stay in the room that it was read into.
#[derive(Clone, Copy)]
pub enum LineView<'a> {
    /// A lemma.
    Lemma(LemmaView<'a>),
    /// A line for the reader, which says nothing.
    Remark,
    /// The verdict, with which a proof ends.
    Verdict(Verdict),
}
