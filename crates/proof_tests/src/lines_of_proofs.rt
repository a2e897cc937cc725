//! Lines as texts: each form is read, and what was read is printed as it stood. Near misses are examples.
use board_bits::Size;
use cert_format::{Line, Version, print_line, read_line};
use io_ports::MemSink;
use std::alloc::Global;
use std::test::Fail;

/// Room for all that a test writes.
const ROOM: usize = 1 << 10;

/// Lines of proofs on a board of seven columns, which are printed as they stand.
const LINES: [&str; 13] = [
    "1 - W+ end",
    "12 abcdefg W- one d 11",
    "10000000 dd B+ all a:1 b:2 c:3 d:4 e:5 f:6 g:7",
    "3 a B- all g:10000000",
    "4 g B- all a:1 a:1 a:1 a:1 a:1 a:1 a:1 a:1 a:1 a:1",
    "5 - W- end",
    "9 b W+ one g 8",
    "2 abcdefgabcdefgabcdefgabcdefgabcdefgabcdefgabcdefgabcdefgabcdefgabcdefgabcdefgabcdefgabcdefgabcdefgab W+ end",
    "value win 1",
    "value loss 10000000",
    "value draw 2 1",
    "value unknown",
    "value draw 1 1",
];

/// The same of the second version alone.
const IMAGE_LINES: [&str; 2] = ["7 c W- mirror 6", "10000000 - B+ mirror 10000000"];

/// What is read of the text is printed as the text with a line feed.
fn stands_again(alloc: Global, text: &str, size: Size, version: Version) -> Result<(), Fail> {
    let line = read_line(text.as_bytes(), size, version).ok().ok_or(text)?;
    let mut out = MemSink::new(alloc, ROOM, &[])?;
    match line {
        Line::Remark => {}
        _ => print_line(&line, &mut out)?,
    }
    match out.bytes() {
        [read @ .., b'\n'] if read == text.as_bytes() => Ok(()),
        _ => Err(text.into()),
    }
}

#[test]
fn what_is_read_is_printed_as_it_stood(rt: HostRuntime) -> Result<(), Fail> {
    let size = Size::new(7, 6)?;
    for text in LINES {
        stands_again(rt.alloc(), text, size, Version::One)?;
    }
    Ok(())
}

#[test]
fn images_are_lines_of_the_second_version(rt: HostRuntime) -> Result<(), Fail> {
    let size = Size::new(7, 6)?;
    for text in IMAGE_LINES {
        stands_again(rt.alloc(), text, size, Version::Two)?;
    }
    Ok(())
}
