//! How `explain` ends.
use run_frame::{InputStop, RunStop, Sought};

/// How a run of `explain` ends. There is a plan, and it was written with what it answers, or there is none within the reach, and what
/// was written says so: status 0 or 5. Or the input is no game, or the source failed: status 3 or 6. Or the sink of the output
/// failed: status 7.
pub type Explained = Result<Sought, RunStop<InputStop>>;
