//! The program: it makes the allocator and the three standard streams, and hands all that is to be done to `run`.
#![tactic(auto)]

use io_ports::{StdSink, StdSource, finish};
use std::env::Env;
use std::io::{BufWriter, Stdout};
use std::process::ExitCode;
use std::{env, io};
use victor_run::run;

/// The status where memory for the arguments runs out.
const OUT_OF_MEMORY: u8 = 8;

/// The status where the system doesn't give the arguments, or one of them isn't UTF-8.
const NO_WORDS: u8 = 9;

/// How many bytes of output are held back, so that a line isn't one call of the system.
const HELD_OUTPUT: usize = 65536;

/// The arguments after the program's name.
fn words<R: Env + Alloc>(rt: &R) -> io::Result<Vec<String<R::A>, R::A>> {
    Ok(env::args(rt)?.skip(1).collect(rt.alloc())?)
}

/// Standard output behind a buffer; behind one of no bytes, which holds nothing back, where memory runs out.
fn output(rt: &HostRuntime) -> BufWriter<Stdout> {
    if let Ok(writer) = BufWriter::with_capacity(rt.alloc(), HELD_OUTPUT, rt.stdout()) {
        return writer;
    }
    let Ok(writer) = BufWriter::with_capacity(rt.alloc(), 0, rt.stdout()) else {
        unreachable!()
    };
    writer
}

fn main(rt: HostRuntime) -> ExitCode {
    let words = match words(&rt) {
        Ok(words) => words,
        Err(error) if error.kind() == io::ErrorKind::OutOfMemory => {
            return ExitCode::from(OUT_OF_MEMORY);
        }
        Err(_) => return ExitCode::from(NO_WORDS),
    };
    let mut source = StdSource::new(rt.stdin());
    let mut out = StdSink::new(output(&rt));
    let mut err = StdSink::new(rt.stderr());
    let status = run(rt.alloc(), &words, &mut source, &mut out, &mut err);
    let status = finish(status, &mut out, &mut err);
    // Taken apart, so that no drop writes what a failed write left.
    let (_writer, _unsent) = out.into_inner().into_parts();
    ExitCode::from(status)
}
