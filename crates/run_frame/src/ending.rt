//! How a run ends. Each command has a type of the ends that it can have, and this is all that a caller sees of one.
ghost use Rattle.std.specs.Prelude.{◌≡◌, ℕ, List};
ghost use Rattle.device_rules.specs.Devices.{Reports};

use crate::output::put_line;
use io_ports::Sink;
use text_words::LineText;

/// An end of a command.
pub trait Ending {
    /// Its exit status.
    ghost status_of: { Self → ℕ };

    /// Its text for the error stream.
    ghost text_of: { Self → List ℕ };

    /// The exit status: 0, or 3 to 8; 2 where there is no command.
    fn status(&self) -> u8
        ensures { result ≡ status_of self.now };

    /// The text for the error stream, with its line feed; empty where all that was asked for was done.
    fn text(&self) -> LineText
        ensures { result.items ≡ text_of self.now };
}

/// Writes the text of an end to the error stream, where there is one, and answers its status. The text stands there whole,
/// unless the stream's count of faults rose.
pub fn report<T: Ending, E: Sink>(ending: &T, err: &mut E) -> u8
    ensures status { result ≡ T.status_of ending.now }
    ensures told { Reports (E.faults err.old) (E.faults err.new) (E.written err.old) (E.written err.new) (T.text_of ending.now) }
{
    let text = ending.text();
    if !text.is_empty() {
        let _ = put_line(err, text.as_slice());
    }
    ending.status()
}
