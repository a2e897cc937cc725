//! The text of a proof, as definitions that code cites: what a lemma claims and when it is right, the one spelling of
//! each line, how a line is read, which line of a text is refused and why, and what stands written of a text.
//!
//! The definitions stand in `specs/`. The enums here are those that code and definitions share, and each function of
//! `laws` is a law about the definitions: its contract is the theorem, and its body is empty.
#![tactic(auto)]

ghost use Rattle.std.specs.Prelude.{◌≡◌, ◌≤◌, length};
ghost use Rattle.proof_text.specs.Lemma.{claim_for, claim_of_end};
ghost use Rattle.proof_text.specs.Words.{verdict_word, why_word};

pub mod laws;

use game_rules::{End, Side};

/// The format of a proof's text, which its first line names. Texts of the first are read as they always were.
#[derive(Clone, Copy, Debug, PartialEq, Eq)]
pub enum Version {
    /// Named by `victor 1`.
    One,
    /// Named by `victor 2`: a lemma may also rest on an earlier one at the mirror image of its position.
    Two,
}

/// What a lemma says of its position: that a side wins under perfect play, or that it doesn't.
#[derive(Clone, Copy, PartialEq, Eq)]
pub enum Claim {
    /// White wins, written `W+`.
    WhiteWins,
    /// White doesn't win, written `W-`.
    WhiteFails,
    /// Black wins, written `B+`.
    BlackWins,
    /// Black doesn't win, written `B-`.
    BlackFails,
}

impl Claim {
    /// The claim that the side wins, or that it doesn't.
    pub fn of(side: Side, wins: bool) -> Claim
        ensures { result ≡ claim_for side wins }
    {
        match (side, wins) {
            (Side::White, true) => Claim::WhiteWins,
            (Side::White, false) => Claim::WhiteFails,
            (Side::Black, true) => Claim::BlackWins,
            (Side::Black, false) => Claim::BlackFails,
        }
    }

    /// Whether the claim is true of a game that ended so.
    pub fn holds_at(self, end: End) -> bool
        ensures { result ≡ claim_of_end self end }
    {
        match self {
            Claim::WhiteWins => matches!(end, End::White),
            Claim::WhiteFails => !matches!(end, End::White),
            Claim::BlackWins => matches!(end, End::Black),
            Claim::BlackFails => !matches!(end, End::Black),
        }
    }
}

/// What a proof says of its root, for the side to move there, with the numbers of the lemmas that show it. Lemmas are
/// numbered from 1.
#[derive(Clone, Copy, Debug, PartialEq, Eq)]
pub enum Verdict {
    /// The side to move wins, by this lemma.
    Win(u32),
    /// The side to move loses: the other side wins, by this lemma.
    Loss(u32),
    /// Neither wins: first the lemma by which White doesn't, then the one by which Black doesn't.
    Draw(u32, u32),
    /// Nothing is said of the value.
    Unknown,
}

impl Verdict {
    /// The word of the verdict, as its line has it behind `value`.
    pub fn word(self) -> &'static [u8]
        ensures word { result.now ≡ verdict_word self }
        ensures short { length result.now ≤ 7 }
    {
        match self {
            Verdict::Win(_) => b"win",
            Verdict::Loss(_) => b"loss",
            Verdict::Draw(..) => b"draw",
            Verdict::Unknown => b"unknown",
        }
    }
}

/// Why a line of a proof is refused. `F` says why a list of instances is no plan.
#[derive(Clone, Copy, Debug, PartialEq, Eq)]
pub enum Why<F> {
    /// The line is in no form of a proof's lines or longer than 8,192 bytes, stands behind the verdict or behind line
    /// 20,000,000, or is a lemma with another number than the next; or the first line doesn't name the format.
    BadLine,
    /// The path isn't a list of legal moves from the root.
    BadPath,
    /// A lemma is cited that doesn't stand before.
    NoSuchLemma,
    /// The position isn't one where the reason serves, or a cited lemma stands at another position.
    WrongPosition,
    /// The claim isn't one that the reason serves, or a cited lemma claims something else.
    WrongClaim,
    /// The columns cited aren't those that the reason wants.
    MissingMove,
    /// The list of instances is no plan at the position.
    BadPlan(F),
    /// The lemmas that the verdict names don't show it.
    BadVerdict,
    /// The text ends before its verdict.
    EndedEarly,
}

impl<F> Why<F> {
    /// The name by which a report calls it, without what is said of a plan.
    pub fn word(&self) -> &'static [u8]
        ensures word { result.now ≡ why_word self.now }
        ensures short { length result.now ≤ 13 }
    {
        match self {
            Why::BadLine => b"BadLine",
            Why::BadPath => b"BadPath",
            Why::NoSuchLemma => b"NoSuchLemma",
            Why::WrongPosition => b"WrongPosition",
            Why::WrongClaim => b"WrongClaim",
            Why::MissingMove => b"MissingMove",
            Why::BadPlan(_) => b"BadPlan",
            Why::BadVerdict => b"BadVerdict",
            Why::EndedEarly => b"EndedEarly",
        }
    }
}
