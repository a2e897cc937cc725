//! How `check` ends.
use run_frame::RunStop;
use run_proof::ProofStop;

/// How a run of `check` ends. The proof is right, and the line that says so was written: status 0. Or the game is none, a line is
/// refused, the source failed, or memory ran out: status 3, 4, 6 or 8. Or the sink of the output failed: status 7.
pub type Checked = Result<(), RunStop<ProofStop>>;
