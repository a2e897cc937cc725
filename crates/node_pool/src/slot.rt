//! The name of a place in a pool.
ghost use Rattle.std.specs.Prelude.{◌≡◌};

use std::marker::Model;

/// A slot of a pool, as `Pool::place` gave it: a number below that of the pool's slots.
#[derive(Clone, Copy, Debug, PartialEq, Eq)]
pub struct Slot {
    number: u32,
}

impl Model for Slot {
    ghost use Rattle.std.specs.Prelude.{ℕ};

    ghost Value = { ℕ };

    ghost view = { λ slot. slot.number };

    ghost inverse = { λ number. record { number = number } };
}

impl Slot {
    pub(crate) fn new(number: u32) -> Slot
        ensures { result ≡ number }
    {
        Slot { number }
    }

    /// Where the slot lies in its pool.
    pub(crate) fn index(self) -> usize
        ensures { result ≡ self }
    {
        self.number as usize
    }

    pub(crate) fn number(self) -> u32
        ensures { result ≡ self }
    {
        self.number
    }
}
