//! The line of the plan, the third of the input.
ghost use Rattle.std.specs.Prelude.{◌≡◌, ◌≤◌, ℕ, List, [], ◌∷◌, length, Err, MatchResult, IfOk, IfErr};
ghost use Rattle.device_rules.specs.Devices.{Rose};
ghost use Rattle.io_ports.specs.Lines.{longest_line, IsUndecided};
ghost use Rattle.io_ports.specs.Reading.{pending, Reads, PassesLines};
ghost use Rattle.game_rules.specs.Position.{empty_count};
ghost use Rattle.plan_lines.specs.Planned.{members};
ghost use Rattle.play_text.specs.Play.{play_from, play_lines, first_move};
ghost use Rattle.run_frame.specs.declared.game_input.InputStop.TheVariants as inputs;
ghost use Rattle.run_turns.specs.Inputs.{EndsSo, StopsPlay, lines_until};
ghost use Rattle.run_turns.specs.declared.game_end.GameStop.TheVariants as stops;
ghost use Rattle.run_play.specs.Plays.{play_form, head_end};
ghost use Rattle.run_play.specs.Steps.{played_at, played_from};

use crate::no_plan::NoPlan;
use board_bits::Position;
use io_ports::{LineGot, Lines, Source};
use plan_lines::{Plan, read_plan};
use run_frame::InputStop;
use run_turns::GameStop;

/// Reads the line of the plan, which has to be one at this position.
pub(crate) fn read_plan_line<S: Source>(
    root: &Position,
    lines: &mut Lines,
    source: &mut S,
) -> Result<Plan, GameStop<NoPlan>>
    ensures answer { Reads (pending lines.old (S.left source.old) (S.last_read source.old))
        (pending lines.new (S.left source.new) (S.last_read source.new))
        (λ bytes rest. PassesLines 1 bytes rest × MatchResult result
        (λ plan. played_at root.now bytes ≡ played_from (record { plan = plan; stands = root.now }) first_move rest)
        (StopsPlay play_form (played_at root.now bytes))) }
    ensures at { IfOk result (λ plan. (plan.at ≡ root.now) × (empty_count root.now ≤ 100)) }
    ensures waiting { result ≡ Err (stops.Input inputs.Read) → IsUndecided lines.new.ahead }
    ensures stops { IfErr result (λ stop. 3 ≤ lines_until play_form stop) }
    ensures later { S.faults source.old ≤ S.faults source.new }
    ensures caused { result ≡ Err (stops.Input inputs.Read) → Rose (S.faults source.old) (S.faults source.new) }
{
    match lines.next(source) {
        LineGot::Line => match plan_of(root, lines.text()) {
            Ok(plan) => Ok(plan),
            Err(none) => Err(GameStop::Head(none)),
        },
        LineGot::Long | LineGot::Done => Err(GameStop::Head(NoPlan::NoLine)),
        LineGot::Failed => Err(GameStop::Input(InputStop::Read)),
    }
}

/// The plan at this position that the bytes name.
fn plan_of(root: &Position, bytes: &[u8]) -> Result<Plan, NoPlan>
    requires short { length bytes.now ≤ longest_line }
    ensures answer { (more : List (List ℕ)) → MatchResult result
        (λ plan. play_lines root.now (bytes.now ∷ more) ≡ play_from (members plan) root.now first_move more)
        (λ none. EndsSo (play_lines root.now (bytes.now ∷ more)) [] (head_end none)) }
    ensures at { IfOk result (λ plan. (plan.at ≡ root.now) × (empty_count root.now ≤ 100)) }
{
    let Ok(list) = read_plan(bytes, root.size()) else {
        return Err(NoPlan::NoLine);
    };
    match Plan::check(root, list.as_slice()) {
        Ok(plan) => Ok(plan),
        Err(fault) => Err(NoPlan::Refused(fault)),
    }
}
