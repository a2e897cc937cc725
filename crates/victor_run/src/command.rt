//! The commands, over any source and any sinks.
ghost use Rattle.std.specs.Prelude.{◌≡◌, ℕ, List, Option, Some, map, string_bytes};
ghost use Rattle.device_rules.specs.Devices.{Reports, Rose};
ghost use Rattle.victor_words.specs.Words.{IsReadAs, IsWritten, HasRanges};
ghost use Rattle.victor_words.specs.declared.form.Form.{Form};
ghost use Rattle.run_frame.specs.Streams.{StillHolds};
ghost use Rattle.victor_run.specs.Outcome.{version_named, Outcome, Completes};

use crate::no_form::NoForm;
use io_ports::{Sink, Source};
use run_annotate::{Annotating, annotate};
use run_check::check;
use run_drill::{Drilling, drill};
use run_explain::explain;
use run_follow::follow;
use run_frame::report;
use run_play::play;
use run_prove::{Proving, Version, prove};
use run_threat::threat;
use run_trim::trim;
use run_upgrade::upgrade;
use std::alloc::Global;
use victor_words::{Form, read_words};

/// Runs the command that the words ask for: reads from `source`, writes to `out`, and answers the exit status; the text
/// of a fault goes to `err`, whole unless the count of faults of `err` rose.
///
/// What a command reads and writes, and with which status and text it ends, its own crate says: [`prove`], [`check`],
/// [`play`], [`explain`], [`drill`], [`upgrade`], [`threat`], [`follow`], [`trim`], [`annotate`]. Where the words are no written
/// form, the status is 2 and nothing is read or written. What stops a run first decides its end. `play`, `explain` and `threat`
/// take no memory.
pub fn run<S: Source, O: Sink, E: Sink>(
    alloc: Global,
    words: &[String],
    source: &mut S,
    out: &mut O,
    err: &mut E,
) -> u8
    // Every status has its cause here: the words, the bytes that were taken of the source, the cost, or a count of faults.
    // The words are a form, or none. The bytes are few, and those that the source gave as far as it tells: one that tells its
    // bytes determines them.
    ensures outcome { (form : Option Form) × IsReadAs (map string_bytes words.now) form × (text : List ℕ) × Outcome form
        (record { input = S.left source.old; left = S.left source.new; last_read = S.last_read source.new; old = O.written out.old; new = O.written out.new }) result text
        × Reports (E.faults err.old) (E.faults err.new) (E.written err.old) (E.written err.new) text }
    // However it ends, what the sink held stands there still, where it tells.
    ensures held { StillHolds (O.written out.old) (O.written out.new) }
    ensures read_fault { result ≡ 6 → Rose (S.faults source.old) (S.faults source.new) }
    ensures write_fault { result ≡ 7 → Rose (O.faults out.old) (O.faults out.new) }

    // Where no stream failed and the budget suffices, the value is written with its proof, and a proof that is right is
    // accepted, unless memory runs out, and one of the first version upgraded; a game, a plan and moves of White's are
    // played to their end, and so are a right proof and moves of the side that it doesn't favour; a plan is explained
    // where the position is solved within the reach, and is said to be none where it isn't; and games are made and counted,
    // unless memory runs out.
    ensures complete { (form : Form) → IsWritten (map string_bytes words.now) form
        → Completes form (Rose (S.faults source.old) (S.faults source.new)) (Rose (O.faults out.old) (O.faults out.new)) (S.left source.old) result }
{
    match read_words(words) {
        Some(form) => run_form(alloc, form, source, out, err),
        None => report(&NoForm, err),
    }
}

/// Runs the command that a form is, and tells its end.
#[tactic(auto, using(crate::proofs::Completed::completes_as))]
fn run_form<S: Source, O: Sink, E: Sink>(
    alloc: Global,
    form: Form,
    source: &mut S,
    out: &mut O,
    err: &mut E,
) -> u8
    requires { HasRanges form }
    ensures outcome { (text : List ℕ) × Outcome (Some form)
        (record { input = S.left source.old; left = S.left source.new; last_read = S.last_read source.new; old = O.written out.old; new = O.written out.new }) result text
        × Reports (E.faults err.old) (E.faults err.new) (E.written err.old) (E.written err.new) text }
    ensures held { StillHolds (O.written out.old) (O.written out.new) }
    ensures read_fault { result ≡ 6 → Rose (S.faults source.old) (S.faults source.new) }
    ensures write_fault { result ≡ 7 → Rose (O.faults out.old) (O.faults out.new) }
    ensures complete { Completes form (Rose (S.faults source.old) (S.faults source.new)) (Rose (O.faults out.old) (O.faults out.new)) (S.left source.old) result }
{
    match form {
        Form::Prove {
            nodes,
            reach,
            front,
            table,
            format,
        } => {
            let version = version_named(format);
            let how = Proving {
                nodes,
                reach,
                slots: front,
                table,
                version,
            };
            report(&prove(alloc, how, source, out), err)
        }
        Form::Check => report(&check(alloc, source, out), err),
        Form::Play => report(&play(source, out), err),
        Form::Explain { reach } => report(&explain(reach, source, out), err),
        Form::Drill {
            size,
            moves,
            seed,
            games,
            nodes,
            reach,
        } => {
            let how = Drilling {
                size,
                moves,
                seed,
                games,
                nodes,
                reach,
            };
            report(&drill(alloc, &how, out), err)
        }
        Form::Upgrade => report(&upgrade(alloc, source, out), err),
        Form::Threat => report(&threat(source, out), err),
        Form::Follow { holder } => report(&follow(alloc, holder, source, out), err),
        Form::Trim => report(&trim(alloc, source, out), err),
        Form::Annotate { nodes, reach, last } => {
            let how = Annotating { nodes, reach, last };
            report(&annotate(alloc, how, source, out), err)
        }
    }
}

/// The version of a proof that this number of a format names.
fn version_named(format: u32) -> Version
    ensures { result ≡ version_named format }
{
    if format == 2 {
        Version::Two
    } else {
        Version::One
    }
}
