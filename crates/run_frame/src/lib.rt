//! The frame in which every command runs: what a caller sees of how a run ended, the line that it writes then, and how a
//! game is read, from an input that is nothing else or at the head of one of lines. It rests on the streams and on the
//! texts of games, and on nothing of what the commands do. No call takes memory.
#![tactic(auto)]

mod ending;
mod game_input;
mod game_lines;
mod output;
mod run_stop;

pub use ending::{Ending, report};
pub use game_input::{InputStop, read_game_input};
pub use game_lines::{read_game_lines, read_played_game};
pub use output::{begin_refusal, memory_text, put_line, write_text};
pub use run_stop::{MemoryStop, RunStop, Sought};
pub use text_words::{LineText, push_number, push_square, push_text};
