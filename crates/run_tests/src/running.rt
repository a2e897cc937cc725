//! A run over devices in memory, some of whose calls may fail.
use io_ports::{MemSink, MemSource};
use run_callers::run;
use std::alloc::{AllocError, Global};

/// Room for all that a run of a test writes.
const ROOM: usize = 1 << 12;

/// What a run wrote, and its status.
#[derive(Drop)]
pub(crate) struct Ran {
    pub(crate) status: u8,
    pub(crate) out: Vec<u8>,
    pub(crate) err: Vec<u8>,
}

/// The devices of a run: the size of the source's pieces, the calls that fail, and the sink's room.
#[derive(Clone, Copy)]
pub(crate) struct Devices<'a> {
    pub(crate) piece: usize,
    pub(crate) source_fails: &'a [u32],
    pub(crate) room: usize,
    pub(crate) out_fails: &'a [u32],
    pub(crate) err_fails: &'a [u32],
}

pub(crate) const SOUND: Devices<'static> = Devices {
    piece: 256,
    source_fails: &[],
    room: ROOM,
    out_fails: &[],
    err_fails: &[],
};

fn words_of(alloc: Global, words: &[&str]) -> Result<Vec<String>, AllocError> {
    words
        .iter()
        .map(|word| String::from_str(alloc, word))
        .try_collect(alloc)
}

pub(crate) fn run_over(
    alloc: Global,
    words: &[&str],
    input: &[u8],
    devices: Devices<'_>,
) -> Result<Ran, AllocError> {
    let words = words_of(alloc, words)?;
    let mut source = MemSource::new(alloc, input, devices.piece.max(1), devices.source_fails)?;
    let mut out = MemSink::new(alloc, devices.room, devices.out_fails)?;
    let mut err = MemSink::new(alloc, ROOM, devices.err_fails)?;
    let status = run(alloc, &words, &mut source, &mut out, &mut err);
    Ok(Ran {
        status,
        out: out.bytes().to_vec(alloc)?,
        err: err.bytes().to_vec(alloc)?,
    })
}
