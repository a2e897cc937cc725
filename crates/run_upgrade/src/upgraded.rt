//! How `upgrade` ends.
use run_frame::RunStop;
use run_proof::ProofStop;

/// How a run of `upgrade` ends. The proof is right, and what becomes of it was written whole: status 0. Or the game is none, a line is
/// refused, the source failed, or memory ran out: status 3, 4, 6 or 8. Or the sink of the output failed: status 7.
pub type Upgraded = Result<(), RunStop<ProofStop>>;
