//! Runs of callers: what a sink in memory held stands there still.
use io_ports::{MemSink, MemSource, StdSource};
use run_callers::{prove_within_budget, run_into_memory};
use std::test::Fail;

// Two squares are left, which fill the board without a line.
const GAME: &[u8] = b"board 4 4\nmoves cdccddcdaaaabb\n";

#[test]
fn a_sink_in_memory_keeps_what_it_held(rt: HostRuntime) -> Result<(), Fail> {
    let words = vec![in rt.alloc(); String::from_str(rt.alloc(), "prove")?]?;
    let mut out = MemSink::new(rt.alloc(), 1000, &[])?;
    let mut source = StdSource::new(GAME);
    assert!(rt; run_into_memory(rt.alloc(), &words, &mut source, &mut out) == 0);
    let first = Vec::from_slice(rt.alloc(), out.bytes())?;
    let mut source = MemSource::new(rt.alloc(), GAME, 4, &[])?;
    assert!(rt; prove_within_budget(rt.alloc(), &words, &mut source, &mut out) == 0);
    let twice = out.bytes().len() == 2 * first.len();
    assert!(rt; twice && out.bytes().starts_with(first.as_slice()));
    Ok(())
}
