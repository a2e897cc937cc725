//! The checker: what stands after the lines so far, and the tests of the next.
ghost use Rattle.std.specs.Prelude.{◌≡◌, ◌+◌, ◌^◌, ◌<◌, ◌≤◌, [], ◌∷◌, ◌++◌, Some, None, is_some, map, length, MatchResult, IfOk, OnOk, OnErr, IfErr};
ghost use Rattle.game_rules.specs.Position.{board_of, played};
ghost use Rattle.proof_text.specs.Lemma.{ALemma, AVerdict};
ghost use Rattle.proof_text.specs.Checked.{lemma_refusal, line_refusal, with_line};
ghost use Rattle.proof_text.specs.Texts.{start};
ghost use Rattle.proof_text.specs.declared.Why.TheVariants.{EndedEarly};
ghost use Rattle.proof_lines.specs.Shape.{lemma_viewed, line_of, viewed};
ghost use Rattle.cert_checker.specs.Checking.{Finds, IsAt, LeavesSpare, StaysAs, StopsAt};
ghost use Rattle.cert_checker.specs.declared.stops.AddStop.TheVariants.{Refused};

use crate::known::Known;
use crate::reasons::{check_reason, verdict_stands};
use crate::stops::{Accepted, AddStop, Refusal, Why};
use crate::trail::Trail;
use board_bits::Position;
use proof_lines::{LemmaView, Line, LineView};
use proof_text::Verdict;
use std::alloc::{AllocError, Global};
use std::marker::Model;

/// What stands after the lines of a proof that were added: the root, what each lemma shows, and the verdict if there
/// was one; and room for more lemmas. The path of the last lemma is kept with its positions.
#[derive(Drop)]
pub struct Checker {
    trail: Trail,
    known: Known,
    verdict: Option<Verdict>,
}

impl Model for Checker {
    ghost use Rattle.std.specs.Prelude.{◌≡◌};
    ghost use Rattle.game_rules.specs.Position.{board_of};
    ghost use Rattle.cert_checker.specs.Checking.{Checking};

    ghost Value = { Checking };

    ghost view = { λ a. record {
      stands = record { root = a.trail.root; known = a.known.shown; verdict = a.verdict };
      spare = a.known.spare;
      memory = a.known.memory;
      path = a.trail.path;
    } };

    ghost invariant = { λ a. board_of a.trail.root ≡ a.known.board };
}

impl Checker {
    /// A checker to which no line was added. No memory is taken.
    pub fn new(alloc: Global, root: Position) -> Checker
        ensures { result ≡ record { stands = start root; spare = 0; memory = (0, 0); path = [] } }
    {
        Checker {
            trail: Trail::new(root),
            known: Known::new(alloc, root.size()),
            verdict: None,
        }
    }

    /// How many lemmas were added.
    pub fn lemmas(&self) -> u32
        ensures { result ≡ length self.now.stands.known }
    {
        self.known.len()
    }

    /// How many lemmas can be added without taking memory.
    pub fn spare(&self) -> u32
        ensures { result ≡ self.now.spare }
    {
        self.known.spare()
    }

    /// Makes room for so many more lemmas, where there is less; what stands doesn't change. `AllocError` comes only where
    /// memory would have to be taken and none is found, and then there is as much room as before.
    pub fn reserve(&mut self, lemmas: u32) -> Result<(), AllocError>
        ensures stands { self.new.stands ≡ self.old.stands }
        ensures room { OnOk result (lemmas ≤ self.new.spare) }
        ensures more { self.old.spare ≤ self.new.spare }
        ensures enough { lemmas ≤ self.old.spare → self.new ≡ self.old }
        ensures none { OnErr result (self.new.spare ≡ self.old.spare) }
        ensures full { OnErr result (self.old.spare < lemmas) }
    {
        self.known.reserve(lemmas)
    }

    /// The position of the last lemma that was added, or the root where none was; behind a lemma that is refused, one on the
    /// way to its position.
    pub fn position(&self) -> &Position
        ensures { played self.now.stands.root self.now.path ≡ Some result.now }
    {
        self.trail.last().position()
    }

    /// Whether a verdict was added.
    pub fn has_verdict(&self) -> bool
        ensures { result ≡ is_some self.now.stands.verdict }
    {
        self.verdict.is_some()
    }

    /// Adds the line that stands at this line number. It is refused exactly where the definitions refuse it, by the
    /// first name that they give. `Memory` comes only for a lemma that isn't refused, and only where there was no room for
    /// it. After any error what stands and the room are as before. No other line takes memory, and no lemma for which there
    /// is room.
    pub fn add(&mut self, at: u64, line: &Line) -> Result<(), AddStop>
        ensures accepted { OnOk result ((line_refusal self.old.stands (line_of line.now) ≡ None) × (self.new.stands ≡ with_line self.old.stands (line_of line.now))) }
        ensures path { OnOk result (IsAt (line_of line.now) self.new.path) }
        ensures spare { OnOk result (LeavesSpare (line_of line.now) self.old self.new) }
        ensures kept { IfErr result (StaysAs self.old self.new) }
        ensures cause { IfErr result (λ stop. StopsAt self.old.spare at stop (line_refusal self.old.stands (line_of line.now)) (line_of line.now)) }
    {
        match line {
            Line::Lemma(lemma) => self.add_view(at, &LineView::Lemma(lemma.view())),
            Line::Remark => self.add_view(at, &LineView::Remark),
            Line::Verdict(verdict) => self.add_view(at, &LineView::Verdict(*verdict)),
        }
    }

    /// As `add`, of a line that is lent. It is made a part of each caller, so that a command doesn't pay for the others
    /// that read proofs.
    #[inline(always)]
    pub fn add_view(&mut self, at: u64, line: &LineView<'_>) -> Result<(), AddStop>
        ensures accepted { OnOk result ((line_refusal self.old.stands (viewed line.now) ≡ None) × (self.new.stands ≡ with_line self.old.stands (viewed line.now))) }
        ensures path { OnOk result (IsAt (viewed line.now) self.new.path) }
        ensures spare { OnOk result (LeavesSpare (viewed line.now) self.old self.new) }
        ensures kept { IfErr result (StaysAs self.old self.new) }
        ensures cause { IfErr result (λ stop. StopsAt self.old.spare at stop (line_refusal self.old.stands (viewed line.now)) (viewed line.now)) }
    {
        if self.verdict.is_some() {
            return Err(refusal_at(at, Why::BadLine));
        }
        match line {
            LineView::Lemma(lemma) => self.add_lemma(at, lemma),
            LineView::Remark => Ok(()),
            LineView::Verdict(verdict) => self.add_verdict(at, *verdict),
        }
    }

    #[inline(always)]
    fn add_lemma(&mut self, at: u64, lemma: &LemmaView<'_>) -> Result<(), AddStop>
        requires { self.old.stands.verdict ≡ None }
        ensures accepted { OnOk result ((line_refusal self.old.stands (ALemma (lemma_viewed lemma.now)) ≡ None) × (self.new.stands ≡ with_line self.old.stands (ALemma (lemma_viewed lemma.now)))) }
        ensures path { OnOk result (self.new.path ≡ lemma.now.path.now.items) }
        ensures spare { OnOk result (LeavesSpare (ALemma (lemma_viewed lemma.now)) self.old self.new) }
        ensures kept { IfErr result (StaysAs self.old self.new) }
        ensures cause { IfErr result (λ stop. StopsAt self.old.spare at stop (line_refusal self.old.stands (ALemma (lemma_viewed lemma.now))) (ALemma (lemma_viewed lemma.now))) }
    {
        if let Err(why) = check_lemma(&mut self.trail, &self.known, lemma) {
            return Err(refusal_at(at, why));
        }
        let reached = self.trail.last();
        self.known
            .push(reached.position(), lemma.claim)
            .map_err(AddStop::Memory)
    }

    fn add_verdict(&mut self, at: u64, verdict: Verdict) -> Result<(), AddStop>
        requires { self.old.stands.verdict ≡ None }
        ensures accepted { OnOk result ((line_refusal self.old.stands (AVerdict verdict) ≡ None) × (self.new.stands ≡ with_line self.old.stands (AVerdict verdict))) }
        ensures spare { OnOk result (LeavesSpare (AVerdict verdict) self.old self.new) }
        ensures kept { IfErr result (StaysAs self.old self.new) }
        ensures cause { IfErr result (λ stop. StopsAt self.old.spare at stop (line_refusal self.old.stands (AVerdict verdict)) (AVerdict verdict)) }
    {
        if !verdict_stands(&self.known, self.trail.root(), verdict) {
            return Err(refusal_at(at, Why::BadVerdict));
        }
        self.verdict = Some(verdict);
        Ok(())
    }

    /// The verdict and the number of lemmas, where the text ends in front of this line number. `EndedEarly` comes
    /// exactly where no verdict was added.
    pub fn finish(&self, at: u64) -> Result<Accepted, Refusal>
        ensures { MatchResult result
            (λ accepted. (self.now.stands.verdict ≡ Some accepted.verdict) × (accepted.lemmas ≡ length self.now.stands.known))
            (λ refusal. (self.now.stands.verdict ≡ None) × (refusal ≡ record { at = at; why = EndedEarly })) }
    {
        match self.verdict {
            Some(verdict) => Ok(Accepted {
                verdict,
                lemmas: self.known.len(),
            }),
            None => Err(Refusal {
                at,
                why: Why::EndedEarly,
            }),
        }
    }
}

/// Tests that the lemma is right behind the lemmas known, and else answers the first name of what is wrong with it. The
/// trail is then at its path.
#[inline(always)]
fn check_lemma(trail: &mut Trail, known: &Known, lemma: &LemmaView<'_>) -> Result<(), Why>
    requires { board_of trail.old.root ≡ known.now.board }
    ensures refusal { Finds result (lemma_refusal trail.old.root known.now.shown (lemma_viewed lemma.now)) }
    ensures path { OnOk result (trail.new.path ≡ lemma.now.path.now.items) }
    ensures few { OnOk result (length known.now.shown + 1 < 2 ^ 32) }
    ensures root { trail.new.root ≡ trail.old.root }
{
    if u64::from(lemma.number) != u64::from(known.len()) + 1 {
        return Err(Why::BadLine);
    }
    if !trail.follow(lemma.path.as_slice()) {
        return Err(Why::BadPath);
    }
    check_reason(known, trail.last(), lemma.claim, &lemma.reason)
}

fn refusal_at(at: u64, why: Why) -> AddStop
    ensures { result ≡ Refused (record { at = at; why = why }) }
{
    AddStop::Refused(Refusal { at, why })
}
