//! The text of a game as it is written: the line of its board, and that of its moves.
ghost use Rattle.std.specs.Prelude.{◌≡◌, ◌+◌, ◌≤◌, ◌++◌, true, length, map};
ghost use Rattle.arrayvec.specs.ArrayVec.{array_vec_len};
ghost use Rattle.game_rules.specs.Game.{board_played};
ghost use Rattle.game_rules.specs.Grammar.{letter_of, length_text, move_list, game_text};
ghost use Rattle.text_words.specs.Lines.{line_room, most_game_text};

use crate::{LineText, letter_of, push_number, push_text};
use board_bits::{Column, Game, Length};

/// Puts the two lines of a game behind what is there, each with its line feed.
pub fn push_game(line: &mut LineText, game: &Game)
    requires { array_vec_len line.old + most_game_text ≤ line_room }
    ensures items { line.new.items ≡ line.old.items ++ game_text (board_played game.now) game.now.moves true }
{
    let size = game.position().size();
    push_text(line, b"board ");
    push_number(line, u32::from(size.cols()));
    push_text(line, b" ");
    push_number(line, u32::from(size.rows()));
    push_length(line, size.length());
    push_text(line, b"\nmoves ");
    push_moves(line, game.moves());
    push_text(line, b"\n");
}

/// Puts how long the board's lines are behind what is there: nothing where they have four squares.
fn push_length(line: &mut LineText, length: Length)
    requires { array_vec_len line.old + 2 ≤ line_room }
    ensures items { line.new.items ≡ line.old.items ++ length_text length }
    ensures bound { array_vec_len line.new ≤ array_vec_len line.old + 2 }
{
    match length {
        Length::Four => {}
        Length::Five => push_text(line, b" 5"),
    }
}

/// Puts the letters of moves behind what is there, or `-` where there is none.
fn push_moves(line: &mut LineText, moves: &[Column])
    requires { array_vec_len line.old + length moves.now + 1 ≤ line_room }
    ensures items { line.new.items ≡ line.old.items ++ move_list moves.now }
    ensures bound { array_vec_len line.new ≤ array_vec_len line.old + length moves.now + 1 }
{
    if moves.is_empty() {
        push_text(line, b"-");
    } else {
        push_letters(line, moves);
    }
}

/// Puts the letters of moves behind what is there.
fn push_letters(line: &mut LineText, moves: &[Column])
    requires { array_vec_len line.old + length moves.now ≤ line_room }
    ensures items { line.new.items ≡ line.old.items ++ map letter_of moves.now }
    ensures bound { array_vec_len line.new ≡ array_vec_len line.old + length moves.now }
{
    for column in moves {
        line.push(letter_of(*column));
    }
}
