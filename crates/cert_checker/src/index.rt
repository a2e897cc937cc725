//! The first lemma at each position, for each claim: what `upgrade` asks for the mirror image of each lemma's position. A
//! number is found by a hash of the position, so a text of ten million lemmas takes as many steps.
ghost use Rattle.std.specs.Prelude.{◌≡◌, [], OnOk, OnErr};
ghost use Rattle.game_rules.specs.Mirror.{mirror};
ghost use Rattle.cert_checker.specs.Index.{question_of, kept_for, Keeps, KeepsFirst};

use board_bits::{Position, Question};
use position_key::Key;
use proof_text::Claim;
use std::alloc::{AllocError, Global};
use std::collections::HashMap;
use std::marker::Model;

/// The numbers of lemmas, by the positions at which they stand and what they claim there.
#[derive(Drop)]
pub struct MirrorIndex {
    wins: HashMap<Key, u32>,
    fails: HashMap<Key, u32>,
}

impl Model for MirrorIndex {
    ghost use Rattle.cert_checker.specs.Index.{Numbers};

    ghost Value = { Numbers };

    ghost view = { λ index. record { wins = index.wins.entries; fails = index.fails.entries } };
}

impl MirrorIndex {
    /// An index in which no number is kept. No memory is taken.
    pub fn new(alloc: Global) -> MirrorIndex
        ensures { result ≡ record { wins = []; fails = [] } }
    {
        MirrorIndex {
            wins: HashMap::new(alloc),
            fails: HashMap::new(alloc),
        }
    }

    /// Keeps the number of a lemma that makes this claim at the position, unless one is kept for a position that is the
    /// same and for this claim. Where no memory is found nothing has changed.
    pub fn keep(&mut self, position: &Position, claim: Claim, lemma: u32) -> Result<(), AllocError>
        ensures kept { OnOk result (Keeps position.now claim lemma self.old self.new) }
        ensures none { OnErr result (self.new ≡ self.old) }
    {
        let key = Key::of(position, question_of(claim));
        match claim {
            Claim::WhiteWins | Claim::BlackWins => keep_first(&mut self.wins, key, lemma),
            Claim::WhiteFails | Claim::BlackFails => keep_first(&mut self.fails, key, lemma),
        }
    }

    /// The number that is kept for the mirror image of the position and for this claim, and None exactly where there is
    /// none. No memory is taken.
    pub fn find(&self, position: &Position, claim: Claim) -> Option<u32>
        ensures { result ≡ kept_for (mirror position.now) claim self.now }
    {
        let key = Key::of(&position.mirror(), question_of(claim));
        match claim {
            Claim::WhiteWins | Claim::BlackWins => self.wins.get(&key).copied(),
            Claim::WhiteFails | Claim::BlackFails => self.fails.get(&key).copied(),
        }
    }
}

/// Keeps a number for the key, unless one is kept for it.
fn keep_first(numbers: &mut HashMap<Key, u32>, key: Key, lemma: u32) -> Result<(), AllocError>
    ensures kept { OnOk result (KeepsFirst key lemma numbers.old.entries numbers.new.entries) }
    ensures none { OnErr result (numbers.new.entries ≡ numbers.old.entries) }
{
    if numbers.contains_key(&key) {
        return Ok(());
    }
    numbers.insert(key, lemma)?;
    Ok(())
}

/// The question that the claim answers.
fn question_of(claim: Claim) -> Question
    ensures { result ≡ question_of claim }
{
    match claim {
        Claim::WhiteWins | Claim::WhiteFails => Question::WhiteWins,
        Claim::BlackWins | Claim::BlackFails => Question::BlackWins,
    }
}
