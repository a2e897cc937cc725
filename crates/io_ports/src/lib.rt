//! Sources and sinks of bytes: what the product reads from and writes to, in memory and over std's readers and
//! writers, the loops that every command shares, and the lines of an input. Each device counts its faults, and a call
//! fails only where that count rose, so that no caller can give up and blame a device. It rests on the words of
//! `device_rules`, and on `bstr` to find the end of a line.
#![tactic(auto)]

mod adapters;
mod ahead;
mod calls;
mod ending;
mod line_reader;
mod memory;
mod null;
mod ports;
mod transfers;

pub use adapters::{StdSink, StdSource};
pub use ending::{WRITE_FAULT, WRITE_FAULT_TEXT, finish};
pub use line_reader::{LineGot, Lines, each_text_is_cut};
pub use memory::{MemSink, MemSource};
pub use null::NullSink;
pub use ports::{Failed, Sink, Source};
pub use transfers::{put_all, read_all};
