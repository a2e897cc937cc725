//! Room for a path, kept from line to line: paths mostly differ only at their end, so letters are compared with the moves that
//! are there already, and only those behind the same ones are read.
ghost use Rattle.std.specs.Prelude.{◌≡◌, ◌≤◌, [], false, codes, length, option_map, take};
ghost use Rattle.std.specs.Str.{bytes_eq};
ghost use Rattle.proof_text.specs.Reading.{path_of};
ghost use Rattle.cert_format.specs.Names.{AreNamed, AreBelow};

use crate::named_moves::named_moves;
use crate::reading::is_word;
use arrayvec::ArrayVec;
use proof_lines::LONGEST_PATH;
use std::marker::Model;
use text_words::{Column, Size};

/// The moves of a path, and on how many columns they were read: each is in one of these.
#[derive(Drop)]
pub(crate) struct PathRoom {
    cols: u8,
    moves: ArrayVec<Column, LONGEST_PATH>,
}

impl Model for PathRoom {
    ghost use Rattle.std.specs.Prelude.{ℕ, List};
    ghost use Rattle.cert_format.specs.Names.{AreBelow};

    ghost Value = { List ℕ };

    ghost view = { λ room. room.moves.items };

    ghost invariant = { λ room. AreBelow room.cols room.moves.items };
}

impl PathRoom {
    /// Room with no move.
    pub(crate) fn new() -> PathRoom
        ensures { result ≡ [] }
    {
        PathRoom {
            cols: 0,
            moves: ArrayVec::new(),
        }
    }

    pub(crate) fn moves(&self) -> &ArrayVec<Column, LONGEST_PATH>
        ensures { result.now.items ≡ self.now }
    {
        &self.moves
    }

    pub(crate) fn into_moves(self) -> ArrayVec<Column, LONGEST_PATH>
        ensures { result.items ≡ self }
    {
        self.moves
    }

    /// How many of the first letters name the first moves on this board. Where another board's path is in the room, none is
    /// looked at: else a letter could name a column that this one doesn't have.
    #[inline(always)]
    pub(crate) fn named(&self, letters: &[u8], size: Size) -> usize
        ensures moves { result ≤ length self.now }
        ensures letters { result ≤ length letters.now }
        ensures named { AreNamed size.cols (take result self.now) (take result letters.now) }
    {
        if self.cols != size.cols() {
            return 0;
        }
        named_moves(self.moves.as_slice(), letters)
    }

    /// Reads the letters of at most a hundred columns, or `-` for none. So many moves of the path before are named by the same
    /// letters and stay, so that only the letters behind them are read.
    #[inline(always)]
    pub(crate) fn read(&mut self, word: &[u8], kept: usize, size: Size) -> Option<()>
        requires moves { kept ≤ length self.old }
        requires letters { kept ≤ length word.now }
        requires named { AreNamed size.cols (take kept self.old) (take kept word.now) }
        ensures { option_map (λ _. self.new) result ≡ path_of size.cols word.now }
    {
        if is_word(word, b"-") {
            self.moves.clear();
            return Some(());
        }
        if word.is_empty() || word.len() > LONGEST_PATH {
            return None;
        }
        self.cols = size.cols();
        read_letters(&mut self.moves, word, kept, size)
    }
}

/// Reads one letter or more behind those that name the first so many moves.
#[inline(always)]
fn read_letters(
    path: &mut ArrayVec<Column, LONGEST_PATH>,
    word: &[u8],
    kept: usize,
    size: Size,
) -> Option<()>
    requires moves { kept ≤ length path.old.items }
    requires letters { kept ≤ length word.now }
    requires named { AreNamed size.cols (take kept path.old.items) (take kept word.now) }
    requires some { 1 ≤ length word.now }
    requires short { length word.now ≤ LONGEST_PATH }
    requires moved { bytes_eq word.now (codes "-") ≡ false }
    ensures read { option_map (λ _. path.new.items) result ≡ path_of size.cols word.now }
    ensures below { AreBelow size.cols path.new.items }
{
    shorten(path, kept);
    for letter in &word[kept..] {
        path.push(size.column_named(*letter)?);
    }
    Some(())
}

/// Takes the moves behind the first so many off a path, one by one: mostly there are one or two.
#[inline(always)]
fn shorten(path: &mut ArrayVec<Column, LONGEST_PATH>, kept: usize)
    requires { kept ≤ length path.old.items }
    ensures { path.new.items ≡ take kept path.old.items }
{
    while path.len() > kept {
        path.pop();
    }
}
