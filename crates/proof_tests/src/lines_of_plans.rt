//! Plan lines as texts: each rule's text is read and printed as it stood. The expected texts are written out here, from the
//! rules of how they are spelled. Near misses are examples.
use board_bits::Size;
use io_ports::MemSink;
use plan_lines::{print_plan, read_plan};
use std::alloc::{AllocError, Global};
use std::test::Fail;

/// Room for all that a test writes.
const ROOM: usize = 100;

/// Lines on a board of six columns and six rows, which are printed as they stand.
const PLANS: [&str; 12] = [
    "plan CE:a1",
    "plan BI:c1,d1",
    "plan LI:c2-c4,d2-d4",
    "plan HI:c2,d2",
    "plan BC:a2,b1,c2",
    "plan BC:c2,b1,a2",
    "plan VE:c4",
    "plan AE:a2h",
    "plan BE:a2h",
    "plan SB:b1u,d4,c2",
    "plan CE:a1 CE:a1",
    "plan CE:f5 BI:a6,f6 LI:a2-a6,f4-f6 AE:f3v BE:a1u AE:c4d",
];

/// What the line is printed as after it was read; nothing where it is no plan line.
fn read_and_printed(alloc: Global, text: &[u8], size: Size) -> Result<Vec<u8>, AllocError> {
    let mut out = MemSink::new(alloc, ROOM, &[])?;
    if let Ok(list) = read_plan(text, size) {
        if !list.is_empty() && list.len() <= 300 {
            let _ = print_plan(list.as_slice(), &mut out);
        }
    }
    out.bytes().to_vec(alloc)
}

#[test]
fn what_is_read_as_a_plan_is_printed_as_it_stood(rt: HostRuntime) -> Result<(), Fail> {
    let size = Size::new(6, 6)?;
    for text in PLANS {
        let again = read_and_printed(rt.alloc(), text.as_bytes(), size)?;
        let [read @ .., b'\n'] = again.as_slice() else {
            return Err("no line feed".into());
        };
        assert!(rt; read == text.as_bytes(), "{text}");
    }
    Ok(())
}
