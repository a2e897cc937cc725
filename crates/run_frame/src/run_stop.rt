//! How a run ends of which the result says all: what was done, or what stopped it.
ghost use Rattle.std.specs.Prelude.{◌≡◌};
ghost use Rattle.run_frame.specs.declared.run_stop.RunStop.TheVariants as stops;

use crate::ending::Ending;
use crate::output::{memory_text, write_text};
use io_ports::{Failed, WRITE_FAULT};
use std::alloc::AllocError;
use text_words::LineText;

/// What stops a run. `S` is what stops the command itself, before it writes or as it reads.
#[derive(Clone, Copy, Drop)]
pub enum RunStop<S> {
    /// What stops the command, with its own status.
    Own(S),
    /// The sink of the output failed, which comes only where its count of faults rose: status 7.
    Write,
}

/// What stops a command that takes memory before it writes. `S` is what stops the reading of its input.
#[derive(Clone, Copy, Drop)]
pub enum MemoryStop<S> {
    /// What stopped the reading, with its own status.
    Input(S),
    /// Memory ran out, and nothing was written: status 8.
    Memory,
}

/// What a command found that looks for something; either is what it wrote.
#[derive(Clone, Copy, Drop)]
pub enum Sought {
    /// What was looked for: status 0.
    Found,
    /// Nothing, within what was allowed: status 5.
    Missing,
}

impl<S: Drop> From<Failed> for RunStop<S> {
    ghost from_gives = { λ failed stop. stop ≡ stops.Write };

    fn from(_failed: Failed) -> RunStop<S> {
        RunStop::Write
    }
}

impl<S: Ending> Ending for RunStop<S> {
    ghost use Rattle.run_frame.specs.Stops.{run_stop_status, run_stop_text};

    ghost status_of = { run_stop_status S.status_of };

    ghost text_of = { run_stop_text S.text_of };

    fn status(&self) -> u8 {
        match self {
            RunStop::Own(why) => why.status(),
            RunStop::Write => WRITE_FAULT,
        }
    }

    fn text(&self) -> LineText {
        match self {
            RunStop::Own(why) => why.text(),
            RunStop::Write => write_text(),
        }
    }
}

impl<S: Ending> Ending for MemoryStop<S> {
    ghost use Rattle.run_frame.specs.Stops.{memory_stop_status, memory_stop_text};

    ghost status_of = { memory_stop_status S.status_of };

    ghost text_of = { memory_stop_text S.text_of };

    fn status(&self) -> u8 {
        match self {
            MemoryStop::Input(why) => why.status(),
            MemoryStop::Memory => 8,
        }
    }

    fn text(&self) -> LineText {
        match self {
            MemoryStop::Input(why) => why.text(),
            MemoryStop::Memory => memory_text(),
        }
    }
}

/// Memory ran out: status 8.
impl Ending for AllocError {
    ghost use Rattle.run_frame.specs.Texts.{memory_line};

    ghost status_of = { λ failed. 8 };

    ghost text_of = { λ failed. memory_line };

    fn status(&self) -> u8 {
        8
    }

    fn text(&self) -> LineText {
        memory_text()
    }
}

/// All was done that was asked for: status 0.
impl Ending for () {
    ghost use Rattle.std.specs.Prelude.{[]};

    ghost status_of = { λ done. 0 };

    ghost text_of = { λ done. [] };

    fn status(&self) -> u8 {
        0
    }

    fn text(&self) -> LineText {
        LineText::new()
    }
}

impl Ending for Sought {
    ghost use Rattle.std.specs.Prelude.{[]};
    ghost use Rattle.run_frame.specs.Stops.{sought_status};

    ghost status_of = { sought_status };

    ghost text_of = { λ sought. [] };

    fn status(&self) -> u8 {
        match self {
            Sought::Found => 0,
            Sought::Missing => 5,
        }
    }

    fn text(&self) -> LineText {
        LineText::new()
    }
}

/// The end of what was done, or of what stopped it.
impl<D: Ending, S: Ending> Ending for Result<D, S> {
    ghost use Rattle.run_frame.specs.Stops.{of_result};

    ghost status_of = { of_result D.status_of S.status_of };

    ghost text_of = { of_result D.text_of S.text_of };

    fn status(&self) -> u8 {
        match self {
            Ok(done) => done.status(),
            Err(stop) => stop.status(),
        }
    }

    fn text(&self) -> LineText {
        match self {
            Ok(done) => done.text(),
            Err(stop) => stop.text(),
        }
    }
}
