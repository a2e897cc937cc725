//! What `prove` is asked for, and how it ends.
use proof_text::Version;
use run_frame::{InputStop, MemoryStop, RunStop, Sought};

/// What a run of `prove` is asked for.
#[derive(Clone, Copy)]
pub struct Proving {
    /// How many positions a search may enter, up to 10,000,000.
    pub nodes: u32,
    /// How many sets of zones a walk looks at.
    pub reach: u32,
    /// How many slots a front has before each search, from 1 to 1,000,000; None for no front.
    pub slots: Option<u32>,
    /// How many settled positions a table keeps, from 1 to 1,000,000.
    pub table: u32,
    /// The version of the proof. In the second, mirror images of positions that were found are not searched again.
    pub version: Version,
}

/// How a run of `prove` ends. A proof of the game's value was written, or the budget is below the cost of the position, and what was
/// written says that the value is unknown: status 0 or 5. Or the input is no game, or the source failed: status 3 or 6. Or
/// memory for the table or the front ran out, and nothing was written: status 8. Or the sink of the output failed: status 7.
pub type Proved = Result<Sought, RunStop<MemoryStop<InputStop>>>;
