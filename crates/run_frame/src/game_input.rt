//! An input that is the text of a game and nothing behind it.
ghost use Rattle.std.specs.Prelude.{◌≡◌, ◌≤◌, Err};
ghost use Rattle.device_rules.specs.Devices.{Rose};
ghost use Rattle.run_frame.specs.GameInput.{TakesGame};
ghost use Rattle.run_frame.specs.declared.game_input.InputStop.TheVariants as stops;

use crate::ending::Ending;
use crate::output::{fault_text, read_text};
use board_bits::{Game, InputFault, read_game_moves};
use io_ports::{Source, read_all};
use text_words::LineText;

/// No more bytes of the input are read. The text of a game is shorter.
const MOST_INPUT: usize = 256;

/// Why no game was read.
#[derive(Clone, Copy)]
pub enum InputStop {
    /// The input isn't the text of a game: status 3.
    NoGame(InputFault),
    /// The source failed, which comes only where its count of faults rose: status 6.
    Read,
}

impl Ending for InputStop {
    ghost use Rattle.run_frame.specs.Texts.{stop_status, stop_text};

    ghost status_of = { stop_status };

    ghost text_of = { stop_text };

    fn status(&self) -> u8 {
        match self {
            InputStop::NoGame(_) => 3,
            InputStop::Read => 6,
        }
    }

    fn text(&self) -> LineText {
        match self {
            InputStop::NoGame(fault) => fault_text(*fault),
            InputStop::Read => read_text(),
        }
    }
}

/// Reads a game. All of the input was read then.
pub fn read_game_input<S: Source>(source: &mut S) -> Result<Game, InputStop>
    ensures takes { TakesGame (S.left source.old) (S.left source.new) result }
    ensures cause { result ≡ Err stops.Read → Rose (S.faults source.old) (S.faults source.new) }
{
    let mut buffer = [0; MOST_INPUT];
    let Ok(length) = read_all(source, &mut buffer) else {
        return Err(InputStop::Read);
    };
    match read_game_moves(&buffer[..length]) {
        Ok(game) => Ok(game),
        Err(fault) => Err(InputStop::NoGame(fault)),
    }
}
