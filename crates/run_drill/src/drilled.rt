//! What `drill` is asked for, and how it ends.
use board_bits::Size;
use run_frame::RunStop;
use std::alloc::AllocError;

/// What a run of `drill` is asked for.
#[derive(Clone, Copy)]
pub struct Drilling {
    /// The board of the games.
    pub size: Size,
    /// The most moves of a game.
    pub moves: u32,
    /// The number that the games are made from.
    pub seed: u32,
    /// How many games are made.
    pub games: u32,
    /// How many positions the search of each game may enter, up to 10,000,000.
    pub nodes: u32,
    /// How many sets of zones a walk looks at.
    pub reach: u32,
}

/// How a run of `drill` ends. The games were searched, and the line of the counts was written: status 0. Or memory for a table ran out,
/// and nothing was written: status 8. Or the sink of the output failed: status 7.
pub type Drilled = Result<(), RunStop<AllocError>>;
