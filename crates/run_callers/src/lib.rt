//! What callers may rest on: small functions over [`run`], each with a contract that is proved from that of `run` alone. The
//! first reads from a source that may tell nothing of its bytes, as a terminal does, and says what then stands in a sink in
//! memory; the second names how a run ends, where it can't be for want of a budget.
#![tactic(auto)]

ghost use Rattle.std.specs.Prelude.{◌≡◌, ◌⊎◌, ℕ, Option, ◌≤◌, List, Ok, Err, Some, map, string_bytes};
ghost use Rattle.device_rules.specs.Devices.{Rose};
ghost use Rattle.game_rules.specs.Position.{Position};
ghost use Rattle.game_rules.specs.Cost.{cost};
ghost use Rattle.game_rules.specs.Text.{game_at};
ghost use Rattle.victor_run.specs.Planned.{solved_within};
ghost use Rattle.victor_words.specs.Words.{IsWritten};
ghost use Rattle.victor_words.specs.declared.form.Form.TheVariants as forms;
ghost use Rattle.run_frame.specs.declared.run_stop.MemoryStop.TheVariants as memory;
ghost use Rattle.run_frame.specs.declared.run_stop.RunStop.TheVariants as stops;
ghost use Rattle.run_frame.specs.declared.run_stop.Sought.TheVariants as sought;
ghost use Rattle.victor_run.specs.Proves.{Proved, proved_status};
ghost use Rattle.victor_run.specs.Outcome.{version_named};
ghost use Rattle.run_callers.specs.Held.{StillHolds, HoldsProof};

use io_ports::{MemSink, NullSink, Sink, Source};
use std::alloc::Global;
pub use victor_run::run;

/// Runs the arguments over any source into a sink in memory. Whatever the source tells, what the sink held stands there
/// still, and where `prove` ended with 0 or 5, a right proof of some game, in the version that was asked for, stands behind it.
pub fn run_into_memory<S: Source>(
    alloc: Global,
    words: &[String],
    source: &mut S,
    out: &mut MemSink,
) -> u8
    ensures kept { StillHolds out.old.written out.new.written }
    ensures proved { (nodes reach table format : ℕ) (front : Option ℕ) → IsWritten (map string_bytes words.now) (forms.Prove nodes reach front table format) → (result ≡ 0) ⊎ (result ≡ 5)
        → HoldsProof (version_named format) nodes reach front out.old.written out.new.written }
{
    run(alloc, words, source, out, &mut NullSink)
}

/// Proves a game whose cost is within the budget that the arguments give: where no stream failed, the run ends as one that
/// wrote a proof of its value, or for want of memory.
pub fn prove_within_budget<S: Source, O: Sink>(
    alloc: Global,
    words: &[String],
    source: &mut S,
    out: &mut O,
) -> u8
    ensures { (nodes reach table format : ℕ) (front : Option ℕ) (bytes : List ℕ) (p : Position) → IsWritten (map string_bytes words.now) (forms.Prove nodes reach front table format)
        → S.left source.old ≡ Some bytes → game_at bytes ≡ Ok p → cost (solved_within reach) p ≤ nodes
        → (Rose (S.faults source.old) (S.faults source.new) → ⊥) → (Rose (O.faults out.old) (O.faults out.new) → ⊥)
        → (end : Proved) × (result ≡ proved_status end) × ((end ≡ Ok sought.Found) ⊎ (end ≡ Err (stops.Own memory.Memory))) }
{
    run(alloc, words, source, out, &mut NullSink)
}
