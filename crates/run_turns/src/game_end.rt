//! How a command ends that plays an input line by line: what stops it before the moves is the command's own, and all else
//! is the same for each.
ghost use Rattle.std.specs.Prelude.{◌≡◌, ◌++◌};
ghost use Rattle.run_frame.specs.declared.run_stop.RunStop.TheVariants as runs;
ghost use Rattle.run_turns.specs.Turns.{move_fault_line};
ghost use Rattle.run_turns.specs.declared.game_end.GameStop.TheVariants as stops;

use itoa::Buffer;
use play_text::PlayFault;
use run_frame::{Ending, InputStop, LineText, RunStop, push_text};

/// What stops a game before the end of the input. `H` is what a command says that stops it before the moves.
#[derive(Clone, Copy, Drop)]
pub enum GameStop<H> {
    /// The game is none, or the source failed: status 3 or 6.
    Input(InputStop),
    /// What stops the command before the moves, with its own status.
    Head(H),
    /// A line is no move of the other side's: status 3.
    NoMove(PlayFault),
}

/// How such a command ends. Each line was a move, and has its answer: status 0. Or something stopped the game, or the sink of the
/// output failed: status 7.
pub type GameEnd<H> = Result<(), RunStop<GameStop<H>>>;

impl<H: Drop> From<InputStop> for GameStop<H> {
    ghost from_gives = { λ why stop. stop ≡ stops.Input why };

    fn from(why: InputStop) -> GameStop<H> {
        GameStop::Input(why)
    }
}

impl<H: Drop> From<GameStop<H>> for RunStop<GameStop<H>> {
    ghost from_gives = { λ why stop. stop ≡ runs.Own why };

    fn from(why: GameStop<H>) -> RunStop<GameStop<H>> {
        RunStop::Own(why)
    }
}

impl<H: Ending> Ending for GameStop<H> {
    ghost use Rattle.run_turns.specs.Games.{stop_status, stop_text};

    ghost status_of = { stop_status H.status_of };

    ghost text_of = { stop_text H.text_of };

    fn status(&self) -> u8 {
        match self {
            GameStop::Input(why) => why.status(),
            GameStop::Head(head) => head.status(),
            GameStop::NoMove(_) => 3,
        }
    }

    fn text(&self) -> LineText {
        match self {
            GameStop::Input(why) => why.text(),
            GameStop::Head(head) => head.text(),
            GameStop::NoMove(fault) => move_fault_text(*fault),
        }
    }
}

/// Says why a line is no move, and gives its number.
fn move_fault_text(fault: PlayFault) -> LineText
    ensures { result.items ≡ move_fault_line fault }
{
    let mut text = LineText::new();
    let mut digits = Buffer::new();
    push_text(&mut text, b"input fault: ");
    push_text(&mut text, fault.kind.word());
    push_text(&mut text, b" at line ");
    push_text(&mut text, digits.format(fault.at).as_bytes());
    text.push(b'\n');
    text
}
