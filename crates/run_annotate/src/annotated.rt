//! What `annotate` is asked for, and how it ends.
use run_frame::{InputStop, MemoryStop, RunStop};

/// What a run of `annotate` is asked for.
#[derive(Clone, Copy)]
pub struct Annotating {
    /// How many positions each search may enter, up to 10,000,000.
    pub nodes: u32,
    /// How many sets of zones a walk looks at.
    pub reach: u32,
    /// How many of the last moves are marked.
    pub last: u32,
}

/// How a run of `annotate` ends. The moves were marked, and their lines were written: status 0. Or the input is no game, or the source
/// failed: status 3 or 6. Or memory for a table ran out, and nothing was written: status 8. Or the sink of the output failed:
/// status 7.
pub type Annotated = Result<(), RunStop<MemoryStop<InputStop>>>;
