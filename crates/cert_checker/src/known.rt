//! What the lemmas so far show.
ghost use Rattle.std.specs.Prelude.{◌≡◌, ◌+◌, ◌<◌, ◌≤◌, ◌^◌, [], ◌∷◌, ◌++◌, length, option_map, IfSome, OnOk, OnErr};
ghost use Rattle.game_rules.specs.Position.{board_of, same_position};
ghost use Rattle.proof_text.specs.Right.{lemma_at};
ghost use Rattle.proof_text.specs.Checked.{shown_refusal, is_shown};
ghost use Rattle.cert_checker.specs.Checking.{Finds};
ghost use Rattle.board_bits.specs.MenNumber.{position_read, AreMen};

use crate::stops::Why;
use board_bits::{MenNumber, Position, Size};
use proof_text::Claim;
use std::alloc::{AllocError, Global};
use std::marker::Model;

/// What a lemma shows: a claim at a position with these men.
#[derive(Clone, Copy)]
struct Shown {
    men: MenNumber,
    claim: Claim,
}

/// No proof has more lemmas.
pub const MOST_LEMMAS: u32 = 10_000_000;

/// What each lemma shows, at positions of one board. Their paths are forgotten. The men of the positions stand apart from
/// the claims, so that a lemma takes 17 bytes. `spare` is how many more find room in both lists.
#[derive(Drop)]
pub(crate) struct Known {
    size: Size,
    men: Vec<MenNumber>,
    claims: Vec<Claim>,
    spare: u32,
}

impl Model for Known {
    ghost use Rattle.cert_checker.specs.Shown.{AllShown};

    ghost Value = { AllShown };

    ghost use Rattle.cert_checker.specs.KnownFields.{all_shown, IsInStep};

    ghost view = { all_shown };

    ghost invariant = { IsInStep };
}

impl Known {
    /// No lemma. No memory is taken.
    pub(crate) fn new(alloc: Global, size: Size) -> Known
        ensures { result ≡ record { board = size; shown = []; spare = 0; memory = (0, 0) } }
    {
        Known {
            size,
            men: Vec::new(alloc),
            claims: Vec::new(alloc),
            spare: 0,
        }
    }

    /// How many lemmas there are.
    pub(crate) fn len(&self) -> u32
        ensures { result ≡ length self.now.shown }
    {
        self.claims.len() as u32
    }

    /// How many lemmas can be pushed without taking memory.
    pub(crate) fn spare(&self) -> u32
        ensures { result ≡ self.now.spare }
    {
        self.spare
    }

    /// Makes room for so many more lemmas, where there is less. Where no memory is found there is as much room as before.
    pub(crate) fn reserve(&mut self, lemmas: u32) -> Result<(), AllocError>
        ensures same { self.new ≡ record self.old { spare = self.new.spare; memory = self.new.memory } }
        ensures room { OnOk result (lemmas ≤ self.new.spare) }
        ensures more { self.old.spare ≤ self.new.spare }
        ensures enough { lemmas ≤ self.old.spare → self.new ≡ self.old }
        ensures none { OnErr result (self.new.spare ≡ self.old.spare) }
        ensures full { OnErr result (self.old.spare < lemmas) }
    {
        if lemmas <= self.spare {
            return Ok(());
        }
        self.grow(lemmas)
    }

    /// Makes room for so many more lemmas, or for as many as there are where that is more, but then for no more than a
    /// proof may have: so a lemma is moved less than twice on the average.
    #[cold]
    #[inline(never)]
    fn grow(&mut self, lemmas: u32) -> Result<(), AllocError>
        requires { self.old.spare < lemmas }
        ensures same { self.new ≡ record self.old { spare = self.new.spare; memory = self.new.memory } }
        ensures room { OnOk result (lemmas ≤ self.new.spare) }
        ensures none { OnErr result (self.new.spare ≡ self.old.spare) }
    {
        let held = self.len();
        let more = lemmas.max(held.min(MOST_LEMMAS.saturating_sub(held)));
        self.men.try_reserve_exact(more as usize)?;
        self.claims.try_reserve_exact(more as usize)?;
        self.spare = more;
        Ok(())
    }

    /// One more lemma, which shows this claim at the position. Memory is taken only where there is no room, and where none
    /// is found the lemmas and the room are as before.
    #[inline(always)]
    pub(crate) fn push(&mut self, position: &Position, claim: Claim) -> Result<(), AllocError>
        requires board { board_of position.now ≡ self.old.board }
        requires few { length self.old.shown + 1 < 2 ^ 32 }
        ensures kept { OnOk result (self.new ≡ record self.old { shown = self.old.shown ++ (position.now, claim) ∷ []; spare = self.new.spare; memory = self.new.memory }) }
        ensures taken { OnOk result (self.old.spare ≤ self.new.spare + 1) }
        ensures in_place { 0 < self.old.spare → self.new.memory ≡ self.old.memory }
        ensures none { OnErr result (self.new ≡ record self.old { memory = self.new.memory }) }
        ensures full { OnErr result (self.old.spare ≡ 0) }
    {
        self.reserve(1)?;
        self.men.push_reserved(MenNumber::of(position));
        self.claims.push_reserved(claim);
        self.spare -= 1;
        Ok(())
    }

    /// What the lemma with this number, counted from 1, shows.
    fn get(&self, lemma: u32) -> Option<Shown>
        ensures found { option_map (λ shown. (position_read self.now.board shown.men, shown.claim)) result ≡ lemma_at self.now.shown lemma }
        ensures men { IfSome result (λ shown. AreMen self.now.board shown.men) }
    {
        let index = lemma.checked_sub(1)? as usize;
        if index < self.men.len() {
            Some(Shown {
                men: self.men[index],
                claim: self.claims[index],
            })
        } else {
            None
        }
    }
}

/// Tests that a cited lemma stands before, at this position, and makes this claim.
pub(crate) fn check_cited(
    known: &Known,
    position: &Position,
    claim: Claim,
    lemma: u32,
) -> Result<(), Why>
    requires { board_of position.now ≡ known.now.board }
    ensures { Finds result (shown_refusal position.now claim (lemma_at known.now.shown lemma)) }
{
    let Some(shown) = known.get(lemma) else {
        return Err(Why::NoSuchLemma);
    };
    if !stands_at(&shown.men, position) {
        return Err(Why::WrongPosition);
    }
    if shown.claim != claim {
        return Err(Why::WrongClaim);
    }
    Ok(())
}

/// Whether the lemma with this number shows the claim at the position.
pub(crate) fn is_shown(known: &Known, position: &Position, claim: Claim, lemma: u32) -> bool
    requires { board_of position.now ≡ known.now.board }
    ensures { result ≡ is_shown position.now claim (lemma_at known.now.shown lemma) }
{
    match known.get(lemma) {
        Some(shown) => stands_at(&shown.men, position) && shown.claim == claim,
        None => false,
    }
}

/// Whether these are the position's men, on its own board.
fn stands_at(men: &MenNumber, position: &Position) -> bool
    requires { AreMen (board_of position.now) men.now }
    ensures { result ≡ same_position (position_read (board_of position.now) men.now) position.now }
{
    men.same(&MenNumber::of(position))
}
