//! What the words of a command line ask for.

use board_bits::{Side, Size};

/// A command with its options and numbers.
#[derive(Clone, Copy, PartialEq, Eq)]
pub enum Form {
    /// Read a game and write a proof of its position's value.
    Prove {
        /// How many positions a search may enter, from 1 to 10,000,000; 1,000,000 where the words don't say.
        nodes: u32,
        /// How many sets of zones a walk looks at, from 0 to 1,000,000; 1,000 where the words don't say.
        reach: u32,
        /// How many slots a front has before each search, from 1 to 1,000,000; None where the words ask for no front.
        front: Option<u32>,
        /// How many settled positions a table keeps, from 1 to 1,000,000; 100,000 where the words don't say.
        table: u32,
        /// The version of the proof, 1 or 2; 1 where the words don't say.
        format: u32,
    },
    /// Read a proof and say whether it is right.
    Check,
    /// Read a game, a plan and White's moves, and play Black's.
    Play,
    /// Read a game and explain its plan.
    Explain {
        /// How many sets of zones a walk looks at, as for `Prove`.
        reach: u32,
    },
    /// Make games from a number, prove each, and count what was found.
    Drill {
        /// The games' board, with lines of four squares.
        size: Size,
        /// The most moves of a game, from 0 to 100.
        moves: u32,
        /// The number that the games are made from, from 1 to 2,147,483,646.
        seed: u32,
        /// How many games are made, from 1 to 1,000.
        games: u32,
        /// How many positions the search of each game may enter, as for `Prove`.
        nodes: u32,
        /// How many sets of zones a walk looks at, as for `Prove`.
        reach: u32,
    },
    /// Read a proof of the first version and write it in the second.
    Upgrade,
    /// Read a game and Black's moves, and play White's by an odd threat.
    Threat,
    /// Read a proof and the other side's moves, and play this side's by the proof.
    Follow {
        /// The side that plays by the proof.
        holder: Side,
    },
    /// Read a proof and write it with those lemmas alone on which its verdict rests.
    Trim,
    /// Read a game and mark its last moves as mistakes or not.
    Annotate {
        /// How many positions each search may enter, as for `Prove`.
        nodes: u32,
        /// How many sets of zones a walk looks at, as for `Prove`.
        reach: u32,
        /// How many of the last moves are marked, from 0 to 100; 100 where the words don't say.
        last: u32,
    },
}
