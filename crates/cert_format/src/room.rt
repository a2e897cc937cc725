//! Room into which lines are read, kept from line to line, so that no lemma is moved where it is read and looked at: a
//! lemma's plan alone may have three hundred instances.
ghost use Rattle.std.specs.Prelude.{◌≡◌};
ghost use Rattle.proof_text.specs.Lemma.{ByEnd};
ghost use Rattle.proof_text.specs.Reading.{read_line};
ghost use Rattle.proof_lines.specs.Shape.{reason_of, reason_viewed, lemma_of, lemma_viewed};
ghost use Rattle.cert_format.specs.Rooms.{reason_in, lemma_in, unread_lemma, Views};

use crate::path_room::PathRoom;
use crate::reading::read_into;
use arrayvec::ArrayVec;
use plan_lines::{Instance, LineFault, MOST_MEMBERS};
use proof_lines::{Cite, Lemma, LemmaView, LineView, MOST_CITES, Reason, ReasonKind, ReasonView};
use proof_text::{Claim, Verdict, Version};
use text_words::Size;

/// Room for one line.
#[derive(Drop)]
pub struct LineBuffer {
    room: LemmaRoom,
}

impl LineBuffer {
    /// Room in which no line was read yet.
    pub fn new() -> LineBuffer
        ensures { lemma_in result.room ≡ unread_lemma }
    {
        LineBuffer {
            room: LemmaRoom::new(),
        }
    }

    /// What `read_line` answers of the bytes, read into this room. It is made a part of each caller, so that a command
    /// doesn't pay for the others that read proofs.
    #[inline(always)]
    pub fn read(
        &mut self,
        bytes: &[u8],
        size: Size,
        version: Version,
    ) -> Result<LineView<'_>, LineFault>
        ensures { Views result (read_line version size bytes.now) }
    {
        match read_into(&mut self.room, bytes, size, version)? {
            Kind::Lemma => Ok(LineView::Lemma(self.room.view())),
            Kind::Remark => Ok(LineView::Remark),
            Kind::Verdict(verdict) => Ok(LineView::Verdict(verdict)),
        }
    }
}

/// Which kind of line was read. A lemma is in the room that it was read into.
#[derive(Clone, Copy)]
pub(crate) enum Kind {
    Lemma,
    Remark,
    Verdict(Verdict),
}

/// Room for a reason.
#[derive(Drop)]
pub(crate) struct ReasonRoom {
    pub(crate) kind: ReasonKind,
    pub(crate) cites: ArrayVec<Cite, MOST_CITES>,
    pub(crate) members: ArrayVec<Instance, MOST_MEMBERS>,
}

impl ReasonRoom {
    fn new() -> ReasonRoom
        ensures { reason_in result ≡ ByEnd }
    {
        ReasonRoom {
            kind: Reason::Ended,
            cites: ArrayVec::new(),
            members: ArrayVec::new(),
        }
    }

    /// The reason that is in the room.
    fn view(&self) -> ReasonView<'_>
        ensures { reason_viewed result ≡ reason_in self.now }
    {
        self.kind.with(&self.cites, &self.members)
    }

    /// The reason that is in the room, taken out of it.
    fn into_reason(self) -> Reason
        ensures { reason_of result ≡ reason_in self }
    {
        self.kind.with(self.cites, self.members)
    }
}

/// Room for a lemma.
#[derive(Drop)]
pub(crate) struct LemmaRoom {
    pub(crate) number: u32,
    pub(crate) path: PathRoom,
    pub(crate) claim: Claim,
    pub(crate) reason: ReasonRoom,
}

impl LemmaRoom {
    /// Room in which no lemma was read yet.
    pub(crate) fn new() -> LemmaRoom
        ensures { lemma_in result ≡ unread_lemma }
    {
        LemmaRoom {
            number: 0,
            path: PathRoom::new(),
            claim: Claim::WhiteWins,
            reason: ReasonRoom::new(),
        }
    }

    /// The lemma that is in the room.
    fn view(&self) -> LemmaView<'_>
        ensures { lemma_viewed result ≡ lemma_in self.now }
    {
        LemmaView {
            number: self.number,
            path: self.path.moves(),
            claim: self.claim,
            reason: self.reason.view(),
        }
    }

    /// The lemma that is in the room, taken out of it.
    pub(crate) fn into_lemma(self) -> Lemma
        ensures { lemma_of result ≡ lemma_in self }
    {
        Lemma {
            number: self.number,
            path: self.path.into_moves(),
            claim: self.claim,
            reason: self.reason.into_reason(),
        }
    }
}
