//! How `trim` ends.
use run_frame::{MemoryStop, RunStop};
use run_proof::ProofStop;

/// How a run of `trim` ends. The proof is right, and what its verdict rests on was written: status 0. Or the game is none, a line is
/// refused, the source failed, or memory for a lemma ran out: status 3, 4, 6 or 8. Or the proof is right, and memory ran out
/// as its lemmas were looked through: status 8. Or the sink of the output failed: status 7.
pub type Trimmed = Result<(), RunStop<MemoryStop<ProofStop>>>;
