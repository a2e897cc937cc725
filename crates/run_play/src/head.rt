//! The first three lines of the input: a game, and a plan at its position.
ghost use Rattle.std.specs.Prelude.{◌≡◌, ◌≤◌, Err, MatchResult, IfOk};
ghost use Rattle.device_rules.specs.Devices.{Rose};
ghost use Rattle.io_ports.specs.Lines.{IsUndecided};
ghost use Rattle.io_ports.specs.Reading.{pending, Reads, PassesLines};
ghost use Rattle.play_text.specs.Play.{play_of, first_move};
ghost use Rattle.run_frame.specs.declared.game_input.InputStop.TheVariants as inputs;
ghost use Rattle.run_turns.specs.Inputs.{StopsPlay, lines_until};
ghost use Rattle.run_turns.specs.Steps.{turns_by};
ghost use Rattle.run_turns.specs.declared.game_end.GameStop.TheVariants as stops;
ghost use Rattle.run_play.specs.Plays.{play_form};
ghost use Rattle.run_play.specs.Turns.{plan_stands, plan_turn, turns_left};

use crate::no_plan::NoPlan;
use crate::plan_line::read_plan_line;
use crate::plan_player::PlanPlayer;
use io_ports::{Lines, Source};
use run_frame::read_game_lines;
use run_turns::GameStop;

/// Reads the game and the plan, and answers the player who begins at its position.
pub(crate) fn read_player<S: Source>(
    lines: &mut Lines,
    source: &mut S,
) -> Result<PlanPlayer, GameStop<NoPlan>>
    ensures answer { Reads (pending lines.old (S.left source.old) (S.last_read source.old))
        (pending lines.new (S.left source.new) (S.last_read source.new))
        (λ bytes rest. MatchResult result
        (λ player. PassesLines 3 bytes rest × (play_of bytes ≡ turns_by plan_stands plan_turn player first_move rest))
        (λ stop. PassesLines (lines_until play_form stop) bytes rest × StopsPlay play_form (play_of bytes) stop)) }
    ensures few { IfOk result (λ player. turns_left player ≤ 50) }
    ensures waiting { result ≡ Err (stops.Input inputs.Read) → IsUndecided lines.new.ahead }
    ensures later { S.faults source.old ≤ S.faults source.new }
    ensures caused { result ≡ Err (stops.Input inputs.Read) → Rose (S.faults source.old) (S.faults source.new) }
{
    let root = read_game_lines(lines, source)?;
    let plan = read_plan_line(&root, lines, source)?;
    Ok(PlanPlayer::new(plan))
}
