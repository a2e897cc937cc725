//! Games made from a number: the state of a generator chooses each move.
ghost use Rattle.std.specs.Prelude.{◌≡◌, ℕ, suc, ◌+◌, ◌*◌, ◌%◌, ◌^◌, ◌<◌, ◌∷◌, true, None, length, slice_index};
ghost use Rattle.std.specs.List.{AllByRecursion};
ghost use Rattle.game_rules.specs.Board.{Board};
ghost use Rattle.game_rules.specs.Position.{empty_position, end_of, has_room, open_columns};
ghost use Rattle.drill_games.specs.Games.{next_state, chosen_column, next_move, game_from, games_from, Leads};

use arrayvec::ArrayVec;
use board_bits::{Column, MOST_COLS, Position, Size};

/// What the generator multiplies a state by.
const MULTIPLIER: u64 = 48_271;

/// What the generator divides the product by, to take the remainder.
const MODULUS: u64 = 2_147_483_647;

/// The next game made from the state, which is left as the game after it goes on from it. The game starts on the empty
/// board and takes at most so many moves, and none after it has ended.
#[tactic(auto, unfolding(crate::specs::Games::games_from))]
pub fn next_game(size: Size, moves: u32, state: &mut u32) -> Position
    ensures game { (result, state.new) ≡ game_from moves (empty_position size) state.old }
    ensures list { (count : ℕ) → games_from (suc count) size moves state.old ≡ result ∷ games_from count size moves state.new }
{
    let (game, after) = game_from(Position::empty(size), moves, *state);
    *state = after;
    game
}

/// Each next state is below 2,147,483,647, and from such a state the product stays below 2 to the power of 47.
pub fn the_generator_stays_in_its_range()
    ensures below { (x : ℕ) → next_state x < 2147483647 }
    ensures product { (x : ℕ) → x < 2147483647 → 48271 * x < 2 ^ 47 }
{}

/// There are as many games as were asked for, and each comes by legal moves from the empty board: by at most so many, and
/// by fewer only where it has ended.
pub fn each_game_comes_by_legal_moves()
    ensures count { (games : ℕ) (board : Board) (moves x : ℕ) → length (games_from games board moves x) ≡ games }
    ensures legal { (games : ℕ) (board : Board) (moves x : ℕ) → AllByRecursion (Leads moves (empty_position board)) (games_from games board moves x) }
{}

/// The position after at most so many moves more, and the state then.
fn game_from(start: Position, moves: u32, state: u32) -> (Position, u32)
    ensures { result ≡ game_from moves start state }
{
    let mut so_far = (start, state);
    for made in 0..moves {
        let Some(next) = next_move(&so_far.0, so_far.1) else {
            return so_far;
        };
        so_far = next;
    }
    so_far
}

/// The position after one move more, and the state that chose it; None exactly where the game has ended.
fn next_move(position: &Position, state: u32) -> Option<(Position, u32)>
    ensures { result ≡ next_move position.now state }
{
    if position.ended().is_some() {
        return None;
    }
    let next = next_state(state);
    Some((position.after(chosen_column(position, next)), next))
}

/// The state after this one.
fn next_state(state: u32) -> u32
    ensures { result ≡ next_state state }
{
    (MULTIPLIER * u64::from(state) % MODULUS) as u32
}

/// The column that the state chooses, where the game goes on.
fn chosen_column(position: &Position, state: u32) -> Column
    requires { end_of position.now ≡ None }
    ensures value { result ≡ chosen_column position.now state }
    ensures room { has_room position.now result ≡ true }
{
    let columns = open_columns(position);
    column_at(columns.as_slice(), state)
}

/// The column at the place that is the state's remainder by their number, counted from 0.
fn column_at(columns: &[Column], state: u32) -> Column
    requires { 0 < length columns.now }
    ensures { result ≡ slice_index columns.now (state % length columns.now) }
{
    columns[state as usize % columns.len()]
}

/// The columns that have room, from the left.
fn open_columns(position: &Position) -> ArrayVec<Column, MOST_COLS>
    ensures { result.items ≡ open_columns position.now }
{
    let size = position.size();
    let mut columns = ArrayVec::new();
    for index in 0..size.cols() {
        let column = size.nth_column(index);
        if position.has_room(column) {
            columns.push(column);
        }
    }
    columns
}
