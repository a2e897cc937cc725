//! The lines of an input, each of which is a move, and the answers to them.
ghost use Rattle.std.specs.Prelude.{◌≡◌, ◌+◌, ◌≤◌, ◌<◌, ◌^◌, ℕ, List, [], ◌∷◌, true, false, Ok, Err, MatchResult, IfErr, OnOk};
ghost use Rattle.device_rules.specs.Devices.{Rose};
ghost use Rattle.io_ports.specs.Lines.{IsUndecided};
ghost use Rattle.io_ports.specs.Reading.{pending};
ghost use Rattle.play_text.specs.Play.{NoMove, ended, behind, column_in};
ghost use Rattle.play_text.specs.Play.{turns_from};
ghost use Rattle.run_frame.specs.declared.game_input.InputStop.TheVariants as inputs;
ghost use Rattle.run_frame.specs.declared.run_stop.RunStop.TheVariants as runs;
ghost use Rattle.run_turns.specs.Games.{end_status};
ghost use Rattle.run_turns.specs.Steps.{TurnStep, PlaysNext, PlaysTurns, is_whole};
ghost use Rattle.run_turns.specs.declared.game_end.GameStop.TheVariants as stops;

use crate::game_end::{GameEnd, GameStop};
use crate::player::Player;
use crate::turn::turn_line;
use board_bits::{Column, MoveFault, Size};
use io_ports::{LineGot, Lines, Sink, Source};
use play_text::{PlayFault, PlayKind};
use run_frame::{InputStop, LineText, RunStop, put_line};

/// Plays all lines to the end of the input, or to what stops the game. The first has this number in the whole input.
pub fn play_turns<H: Drop, P: Player, S: Source, O: Sink>(
    player: &mut P,
    first: u64,
    lines: &mut Lines,
    source: &mut S,
    out: &mut O,
) -> GameEnd<H>
    requires { first + P.left player.old < 2 ^ 64 }
    ensures plays { TurnStep (pending lines.old (S.left source.old) (S.last_read source.old))
        (pending lines.new (S.left source.new) (S.last_read source.new))
        (O.written out.old) (O.written out.new) (is_whole result)
        (P.left player.old) (P.left player.new) (PlaysTurns P.stands P.turn player.old first result) }
    ensures ended { OnOk result (lines.new.ended ≡ true) }
    ensures waiting { result ≡ Err (runs.Own (stops.Input inputs.Read)) → IsUndecided lines.new.ahead }
    ensures later { (S.faults source.old ≤ S.faults source.new) × (O.faults out.old ≤ O.faults out.new) }
    ensures read_fault { (status_of : H → ℕ) → end_status status_of result ≡ 6 → Rose (S.faults source.old) (S.faults source.new) }
    ensures write_fault { (status_of : H → ℕ) → end_status status_of result ≡ 7 → Rose (O.faults out.old) (O.faults out.new) }
{
    let mut at = first;
    while play_next(player, at, lines, source, out)? {
        at += 1;
    }
    Ok(())
}

/// Plays the next line, which has this number, and answers whether there was one.
fn play_next<H: Drop, P: Player, S: Source, O: Sink>(
    player: &mut P,
    at: u64,
    lines: &mut Lines,
    source: &mut S,
    out: &mut O,
) -> Result<bool, RunStop<GameStop<H>>>
    ensures plays { TurnStep (pending lines.old (S.left source.old) (S.last_read source.old))
        (pending lines.new (S.left source.new) (S.last_read source.new))
        (O.written out.old) (O.written out.new) (is_whole result)
        (P.left player.old) (P.left player.new) (PlaysNext P.stands P.turn player.old player.new at result) }
    ensures fewer { result ≡ Ok true → P.left player.new < P.left player.old }
    ensures ended { result ≡ Ok false → lines.new.ended ≡ true }
    ensures waiting { result ≡ Err (runs.Own (stops.Input inputs.Read)) → IsUndecided lines.new.ahead }
    ensures later { (S.faults source.old ≤ S.faults source.new) × (O.faults out.old ≤ O.faults out.new) }
    ensures read_fault { (status_of : H → ℕ) → end_status status_of result ≡ 6 → Rose (S.faults source.old) (S.faults source.new) }
    ensures write_fault { (status_of : H → ℕ) → end_status status_of result ≡ 7 → Rose (O.faults out.old) (O.faults out.new) }
{
    match lines.next(source) {
        LineGot::Line => match play_line(player, at, lines.text()) {
            Ok(line) => {
                put_line(out, line.as_slice())?;
                Ok(true)
            }
            Err(fault) => Err(RunStop::Own(GameStop::NoMove(fault))),
        },
        LineGot::Long => Err(RunStop::Own(GameStop::NoMove(no_move(PlayKind::BadMove, at)))),
        LineGot::Done => Ok(false),
        LineGot::Failed => Err(RunStop::Own(GameStop::Input(InputStop::Read))),
    }
}

/// Plays the move that a line is, and answers the line that is written for it. Where it is none, nothing is changed.
fn play_line<P: Player>(player: &mut P, at: u64, bytes: &[u8]) -> Result<LineText, PlayFault>
    ensures answer { (more : List (List ℕ)) → MatchResult result
        (λ line. turns_from P.stands P.turn player.old at (bytes.now ∷ more)
        ≡ behind (line.items ∷ []) (turns_from P.stands P.turn player.new (at + 1) more))
        (λ fault. turns_from P.stands P.turn player.old at (bytes.now ∷ more) ≡ ended (NoMove fault)) }
    ensures fewer { OnOk result (P.left player.new < P.left player.old) }
    ensures same { IfErr result (λ _. player.new ≡ player.old) }
{
    let Some(column) = column_in(player.size(), bytes) else {
        return Err(no_move(PlayKind::BadMove, at));
    };
    match player.answer(column) {
        Ok(turn) => Ok(turn_line(&turn)),
        Err(MoveFault::GameOver) => Err(no_move(PlayKind::GameOver, at)),
        Err(MoveFault::ColumnFull) => Err(no_move(PlayKind::ColumnFull, at)),
    }
}

/// The column of the board whose letter is the line.
fn column_in(size: Size, bytes: &[u8]) -> Option<Column>
    ensures { result ≡ column_in size bytes.now }
{
    match bytes {
        [letter] => size.column_named(*letter),
        _ => None,
    }
}

/// A line that is no move.
fn no_move(kind: PlayKind, at: u64) -> PlayFault
    ensures { result ≡ record { kind = kind; at = at } }
{
    PlayFault { kind, at }
}
