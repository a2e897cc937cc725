//! The reading of a game text from the left, one small reader for each part of it. Each gives what the definition of
//! the same name gives, so that the text's position, or its first fault, is that of the definitions.
ghost use Rattle.std.specs.Prelude.{◌≡◌, ◌+◌, ◌-◌, ◌<◌, ◌≤◌, true, [], ◌∷◌, ◌++◌, IfSome, IfOk, OnOk, length, drop, take_while};
ghost use Rattle.game_rules.specs.Position.{Position as Men, empty_position};
ghost use Rattle.game_rules.specs.Game.{IsTextOf, letters_in, moves_in, moves_of};
ghost use Rattle.game_rules.specs.Board.{is_cols, is_rows};
ghost use Rattle.game_rules.specs.Text.{after_text, is_digit, cols_of, rows_of, line_of, size_at, length_at, board_at, letter_read, at_end, letters_from, after_dash, moves_at, read_game, game_at};
ghost use Rattle.board_bits.specs.Reading.{Gives};

use crate::{Game, InputFault, InputKind, Length, MoveFault, Position, Size};
use game_rules::Stop;

/// Reads the text of a game: the line `board COLS ROWS`, with ` 5` behind it where lines of five win, and the line `moves`
/// with a letter for each move, or `-` for none; the last line feed may be missing. A text that isn't a game gets its first fault from the left, with its byte
/// place counted from 0.
pub fn read_game_moves(bytes: &[u8]) -> Result<Game, InputFault>
    ensures position { Gives (λ game. game.position) result (game_at bytes.now) }
    ensures text { IfOk result (λ game. IsTextOf bytes.now game) }
{
    match game_in(bytes) {
        Ok(game) => Ok(game),
        Err(stop) => Err(InputFault {
            kind: stop.kind,
            at: bytes.len().saturating_sub(stop.left) as u32,
        }),
    }
}

/// The position of the game that [`read_game_moves`] reads, or the same fault.
pub fn read_game(bytes: &[u8]) -> Result<Position, InputFault>
    ensures { result ≡ game_at bytes.now }
{
    Ok(*read_game_moves(bytes)?.position())
}

#[tactic(auto, unfolding(game_rules::specs::Text::read_game))]
fn game_in(bytes: &[u8]) -> Result<Game, Stop>
    ensures position { Gives (λ game. game.position) result (read_game bytes.now) }
    ensures moves { IfOk result (λ game. game.moves ≡ moves_of bytes.now) }
{
    match board_at(bytes) {
        Ok((size, rest)) => moves_from(size, rest),
        Err(stop) => Err(stop),
    }
}

/// The board, and the bytes after its line and the word `moves`.
#[tactic(auto, unfolding(game_rules::specs::Text::board_at))]
fn board_at(bytes: &[u8]) -> Result<(Size, &[u8]), Stop>
    ensures { Gives (λ found. (found.0, found.1.now)) result (board_at bytes.now) }
{
    let head = after_text(b"board ", bytes)?;
    let (cols, rest) = cols_at(head)?;
    let gap = after_text(b" ", rest)?;
    let (rows, rest) = rows_at(gap)?;
    let (len, rest) = length_at(rest)?;
    let rest = after_text(b"\nmoves ", rest)?;
    Ok((Size::of(cols, rows, len), rest))
}

/// The bytes after a fixed text.
fn after_text<'a>(text: &[u8], bytes: &'a [u8]) -> Result<&'a [u8], Stop>
    ensures { Gives (λ rest. rest.now) result (after_text text.now bytes.now) }
{
    let mut rest = bytes;
    for expected in text {
        let [first, tail @ ..] = rest else {
            return Err(stop(InputKind::BadHeader, rest));
        };
        if first != expected {
            return Err(stop(InputKind::BadHeader, rest));
        }
        rest = tail;
    }
    Ok(rest)
}

/// Reading stops before these bytes.
fn stop(kind: InputKind, rest: &[u8]) -> Stop
    ensures { result ≡ record { kind = kind; left = length rest.now } }
{
    Stop {
        kind,
        left: rest.len(),
    }
}

/// The longest run of digits at the start, and the bytes after it.
fn digit_run(bytes: &[u8]) -> (&[u8], &[u8])
    ensures run { result.0.now ≡ take_while is_digit bytes.now }
    ensures rest { result.1.now ≡ drop (length (take_while is_digit bytes.now)) bytes.now }
{
    let mut digits = 0;
    while digits < bytes.len() && is_digit(bytes[digits]) {
        digits += 1;
    }
    bytes.split_at(digits)
}

fn is_digit(byte: u8) -> bool
    ensures { result ≡ is_digit byte }
{
    b'0' <= byte && byte <= b'9'
}

/// The number of columns, and the bytes after it.
fn cols_at(bytes: &[u8]) -> Result<(u8, &[u8]), Stop>
    ensures value { Gives (λ found. (found.0, found.1.now)) result (size_at cols_of bytes.now) }
    ensures cols { IfOk result (λ found. is_cols found.0 ≡ true) }
{
    let (run, rest) = digit_run(bytes);
    match cols_of(run) {
        Some(cols) => Ok((cols, rest)),
        None => Err(stop(InputKind::BadSize, bytes)),
    }
}

/// The number of rows, and the bytes after it.
fn rows_at(bytes: &[u8]) -> Result<(u8, &[u8]), Stop>
    ensures value { Gives (λ found. (found.0, found.1.now)) result (size_at rows_of bytes.now) }
    ensures rows { IfOk result (λ found. is_rows found.0 ≡ true) }
{
    let (run, rest) = digit_run(bytes);
    match rows_of(run) {
        Some(rows) => Ok((rows, rest)),
        None => Err(stop(InputKind::BadSize, bytes)),
    }
}

fn cols_of(run: &[u8]) -> Option<u8>
    ensures value { result ≡ cols_of run.now }
    ensures cols { IfSome result (λ n. is_cols n ≡ true) }
{
    match run {
        [digit @ b'4'..=b'9'] => Some(digit - b'0'),
        [b'1', b'0'] => Some(10),
        _ => None,
    }
}

fn rows_of(run: &[u8]) -> Option<u8>
    ensures value { result ≡ rows_of run.now }
    ensures rows { IfSome result (λ n. is_rows n ≡ true) }
{
    match run {
        [digit @ (b'4' | b'6' | b'8')] => Some(digit - b'0'),
        [b'1', b'0'] => Some(10),
        _ => None,
    }
}

/// The length of lines that is told behind the rows, and the bytes after it. It is four where no space follows the rows.
fn length_at(bytes: &[u8]) -> Result<(Length, &[u8]), Stop>
    ensures { Gives (λ found. (found.0, found.1.now)) result (length_at bytes.now) }
{
    match bytes {
        [b' ', rest @ ..] => line_at(rest),
        _ => Ok((Length::Four, bytes)),
    }
}

/// The length of lines behind a space, and the bytes after it.
fn line_at(bytes: &[u8]) -> Result<(Length, &[u8]), Stop>
    ensures { Gives (λ found. (found.0, found.1.now)) result (size_at line_of bytes.now) }
{
    let (run, rest) = digit_run(bytes);
    match line_of(run) {
        Some(len) => Ok((len, rest)),
        None => Err(stop(InputKind::BadSize, bytes)),
    }
}

fn line_of(run: &[u8]) -> Option<Length>
    ensures { result ≡ line_of run.now }
{
    match run {
        [b'5'] => Some(Length::Five),
        _ => None,
    }
}

/// The game of a list of moves on a board.
fn moves_from(size: Size, bytes: &[u8]) -> Result<Game, Stop>
    ensures position { Gives (λ game. game.position) result (moves_at (empty_position size) bytes.now) }
    ensures moves { IfOk result (λ game. game.moves ≡ moves_in bytes.now) }
{
    let mut game = Game::new(size);
    moves_at(&mut game, bytes)?;
    Ok(game)
}

/// The list of moves: `-`, or letters.
fn moves_at(game: &mut Game, bytes: &[u8]) -> Result<(), Stop>
    ensures position { Gives (λ _. game.new.position) result (moves_at game.old.position bytes.now) }
    ensures moves { OnOk result (game.new.moves ≡ game.old.moves ++ moves_in bytes.now) }
{
    match bytes {
        [] => Err(stop(InputKind::BadColumn, bytes)),
        [b'-', rest @ ..] => after_dash(rest),
        [letter, rest @ ..] => {
            letter_read(game, *letter, bytes)?;
            letters_from(game, rest)
        }
    }
}

/// Behind `-` there may be one line feed.
fn after_dash(bytes: &[u8]) -> Result<(), Stop>
    ensures { (p : Men) → Gives (λ _. p) result (after_dash p bytes.now) }
{
    match bytes {
        [] => Ok(()),
        [b'\n', rest @ ..] => at_end(rest),
        _ => Err(stop(InputKind::Trailing, bytes)),
    }
}

/// Nothing may follow.
fn at_end(bytes: &[u8]) -> Result<(), Stop>
    ensures { (p : Men) → Gives (λ _. p) result (at_end p bytes.now) }
{
    if bytes.is_empty() {
        Ok(())
    } else {
        Err(stop(InputKind::Trailing, bytes))
    }
}

/// Further letters, up to the line feed or the end.
fn letters_from(game: &mut Game, bytes: &[u8]) -> Result<(), Stop>
    ensures position { Gives (λ _. game.new.position) result (letters_from game.old.position bytes.now) }
    ensures moves { OnOk result (game.new.moves ≡ game.old.moves ++ letters_in bytes.now) }
{
    let mut rest = bytes;
    while let [letter, tail @ ..] = rest {
        if *letter == b'\n' {
            return at_end(tail);
        }
        letter_read(game, *letter, rest)?;
        rest = tail;
    }
    Ok(())
}

/// The move of one letter, the first of the bytes.
fn letter_read(game: &mut Game, letter: u8, bytes: &[u8]) -> Result<(), Stop>
    ensures position { Gives (λ _. game.new.position) result (letter_read game.old.position letter (length bytes.now)) }
    ensures moves { OnOk result (game.new.moves ≡ game.old.moves ++ (letter - 97) ∷ []) }
{
    let Some(column) = game.position().size().column_named(letter) else {
        return Err(stop(InputKind::BadColumn, bytes));
    };
    match game.play(column) {
        Ok(()) => Ok(()),
        Err(MoveFault::GameOver) => Err(stop(InputKind::GameOver, bytes)),
        Err(MoveFault::ColumnFull) => Err(stop(InputKind::ColumnFull, bytes)),
    }
}
