//! A number of 128 bits that is kept as two of 64, so that what holds it stands at a multiple of 8 bytes and not of 16.
ghost use Rattle.std.specs.Prelude.{◌≡◌};

use std::marker::Model;

/// One more than the most that 64 bits hold.
const HALF: u128 = 1 << 64;

/// A number below 2 to the 128.
#[derive(Clone, Copy, Drop)]
pub(crate) struct Word {
    low: u64,
    high: u64,
}

impl Model for Word {
    ghost use Rattle.std.specs.Prelude.{ℕ};
    ghost use Rattle.board_bits.specs.Halves.{halves_number, halves_of, AreHalves, halves_told};

    ghost Value = { ℕ };

    ghost view = { halves_number };

    ghost invariant = { AreHalves };

    ghost inverse = { halves_of };

    ghost inverse_ok = { halves_told };
}

impl Word {
    pub(crate) fn of(number: u128) -> Word
        ensures { result ≡ number }
    {
        Word {
            low: (number % HALF) as u64,
            high: (number / HALF) as u64,
        }
    }

    pub(crate) fn number(&self) -> u128
        ensures { result ≡ self.now }
    {
        u128::from(self.high) * HALF + u128::from(self.low)
    }
}
