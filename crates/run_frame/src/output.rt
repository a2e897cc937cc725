//! Lines that are written, and the texts for the error stream that several commands have.
ghost use Rattle.std.specs.Prelude.{◌≡◌, ◌≤◌, ◌++◌, is_ok};
ghost use Rattle.arrayvec.specs.ArrayVec.{array_vec_len};
ghost use Rattle.device_rules.specs.Devices.{HasCause, AppendsPrefix};
ghost use Rattle.run_frame.specs.Texts.{fault_line, read_line, refusal_begun, write_line, memory_line};

use board_bits::InputFault;
use io_ports::{Failed, Sink, WRITE_FAULT_TEXT, put_all};
use itoa::Buffer;
use text_words::{LineText, push_number, push_text};

/// Writes a line, and hands on what was written.
pub fn put_line<O: Sink>(out: &mut O, line: &[u8]) -> Result<(), Failed>
    ensures written { AppendsPrefix (is_ok result) (O.written out.old) (O.written out.new) line.now }
    ensures cause { HasCause (O.faults out.old) (O.faults out.new) result }
{
    put_all(out, line)?;
    out.flush()
}

/// Says of what fault the input is no game, and at which byte.
pub(crate) fn fault_text(fault: InputFault) -> LineText
    ensures { result.items ≡ fault_line fault }
{
    let mut text = LineText::new();
    push_text(&mut text, b"input fault: ");
    push_text(&mut text, fault.kind.word());
    push_text(&mut text, b" at ");
    push_number(&mut text, fault.at);
    text.push(b'\n');
    text
}

/// Says that the source failed.
pub(crate) fn read_text() -> LineText
    ensures { result.items ≡ read_line }
{
    let mut text = LineText::new();
    push_text(&mut text, b"read fault\n");
    text
}

/// Begins to say why the line with this number is refused.
pub fn begin_refusal(at: u64) -> LineText
    ensures items { result.items ≡ refusal_begun at }
    ensures bound { array_vec_len result ≤ 60 }
{
    let mut text = LineText::new();
    let mut digits = Buffer::new();
    push_text(&mut text, b"refused line ");
    push_text(&mut text, digits.format(at).as_bytes());
    push_text(&mut text, b": ");
    text
}

/// Says that the sink of the output failed.
pub fn write_text() -> LineText
    ensures { result.items ≡ write_line }
{
    let mut text = LineText::new();
    push_text(&mut text, WRITE_FAULT_TEXT);
    text
}

/// Says that memory ran out.
pub fn memory_text() -> LineText
    ensures { result.items ≡ memory_line }
{
    let mut text = LineText::new();
    push_text(&mut text, b"out of memory\n");
    text
}
