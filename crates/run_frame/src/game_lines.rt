//! The two lines of a game at the head of an input of lines, or behind its first. Of each a prefix is kept that is longer
//! than any line of a game, so that a line of any length is read in little room.
ghost use Rattle.std.specs.Prelude.{◌≡◌, ◌+◌, ◌≤◌, length, Ok, Err, IfOk, IfErr, MatchResult};
ghost use Rattle.device_rules.specs.Devices.{Rose};
ghost use Rattle.arrayvec.specs.ArrayVec.{array_vec_len};
ghost use Rattle.game_rules.specs.Game.{IsTextOf};
ghost use Rattle.game_rules.specs.Text.{game_at};
ghost use Rattle.proof_text.specs.Texts.{pieces, lines_in, game_of, behind_game};
ghost use Rattle.io_ports.specs.Lines.{IsUndecided};
ghost use Rattle.io_ports.specs.Reading.{pending, Reads, PassesLines};
ghost use Rattle.run_frame.specs.Reading.{KeepsLine, StopsGame};
ghost use Rattle.run_frame.specs.declared.game_input.InputStop.TheVariants as stops;

use crate::game_input::InputStop;
use arrayvec::ArrayVec;
use board_bits::{Game, Position, read_game_moves};
use io_ports::{LineGot, Lines, Source};
use text_words::push_text;

/// How much of a line of the game is kept. The lines of a game are shorter.
const GAME_PREFIX: usize = 256;

/// The most that is kept of the two lines of the game, with their line feeds.
const MOST_KEPT: usize = 2 * (GAME_PREFIX + 1);

/// Reads the two lines of a game, and answers its position.
pub fn read_game_lines<S: Source>(lines: &mut Lines, source: &mut S) -> Result<Position, InputStop>
    ensures answer { Reads (pending lines.old (S.left source.old) (S.last_read source.old))
        (pending lines.new (S.left source.new) (S.last_read source.new))
        (λ bytes rest. PassesLines 2 bytes rest × MatchResult result
        (λ root. (game_at (game_of (pieces bytes)) ≡ Ok root) × (behind_game (pieces bytes) ≡ lines_in (pieces rest)))
        (StopsGame (game_at (game_of (pieces bytes))) (S.faults source.old) (S.faults source.new))) }
    ensures unread { result ≡ Err stops.Read → Reads (pending lines.old (S.left source.old) (S.last_read source.old))
        (pending lines.new (S.left source.new) (S.last_read source.new)) (PassesLines 1) }
    ensures waiting { result ≡ Err stops.Read → IsUndecided lines.new.ahead }
    ensures later { S.faults source.old ≤ S.faults source.new }
{
    match read_played_game(lines, source) {
        Ok(game) => Ok(*game.position()),
        Err(stop) => Err(stop),
    }
}

/// Reads the two lines of a game, and answers it with its moves.
pub fn read_played_game<S: Source>(lines: &mut Lines, source: &mut S) -> Result<Game, InputStop>
    ensures answer { Reads (pending lines.old (S.left source.old) (S.last_read source.old))
        (pending lines.new (S.left source.new) (S.last_read source.new))
        (λ bytes rest. PassesLines 2 bytes rest × MatchResult result
        (λ game. IsTextOf (game_of (pieces bytes)) game × (behind_game (pieces bytes) ≡ lines_in (pieces rest)))
        (StopsGame (game_at (game_of (pieces bytes))) (S.faults source.old) (S.faults source.new))) }
    ensures unread { result ≡ Err stops.Read → Reads (pending lines.old (S.left source.old) (S.last_read source.old))
        (pending lines.new (S.left source.new) (S.last_read source.new)) (PassesLines 1) }
    ensures waiting { result ≡ Err stops.Read → IsUndecided lines.new.ahead }
    ensures later { S.faults source.old ≤ S.faults source.new }
{
    let mut text = ArrayVec::new();
    keep_line(&mut text, lines, source)?;
    keep_line(&mut text, lines, source)?;
    match read_game_moves(text.as_slice()) {
        Ok(game) => Ok(game),
        Err(fault) => Err(InputStop::NoGame(fault)),
    }
}

/// Puts the prefix of the next line behind the text, and the line feed that ended it.
fn keep_line<S: Source>(
    text: &mut ArrayVec<u8, MOST_KEPT>,
    lines: &mut Lines,
    source: &mut S,
) -> Result<(), InputStop>
    requires { array_vec_len text.old + GAME_PREFIX + 1 ≤ MOST_KEPT }
    ensures kept { Reads (pending lines.old (S.left source.old) (S.last_read source.old))
        (pending lines.new (S.left source.new) (S.last_read source.new))
        (λ bytes rest. PassesLines 1 bytes rest × IfOk result (λ _. KeepsLine text.old.items text.new.items bytes rest)) }
    ensures unread { IfErr result (λ _. Reads (pending lines.old (S.left source.old) (S.last_read source.old))
        (pending lines.new (S.left source.new) (S.last_read source.new)) (PassesLines 0)) }
    ensures waiting { IfErr result (λ _. IsUndecided lines.new.ahead) }
    ensures failed { IfErr result (λ stop. (stop ≡ stops.Read) × Rose (S.faults source.old) (S.faults source.new)) }
    ensures bound { array_vec_len text.new ≤ array_vec_len text.old + GAME_PREFIX + 1 }
    ensures later { S.faults source.old ≤ S.faults source.new }
{
    if let LineGot::Failed = lines.next(source) {
        return Err(InputStop::Read);
    }
    let line = lines.text();
    push_text(text, &line[..line.len().min(GAME_PREFIX)]);
    if lines.fed() {
        text.push(b'\n');
    }
    Ok(())
}
