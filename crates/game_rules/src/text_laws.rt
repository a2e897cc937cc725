//! Laws of the texts of games, each the contract of a function with an empty body: that reading and the grammar are
//! one, which fault a text has and where, and that the first bytes of a long text decide.
ghost use Rattle.std.specs.Prelude.{◌≡◌, ◌↔◌, ℕ, ◌≤◌, ◌<◌, true, List, ◌++◌, length, take, Some, Ok, Err};
ghost use Rattle.game_rules.specs.Board.{Board, is_board};
ghost use Rattle.game_rules.specs.Position.{Position, board_of, empty_position, played, empty_count, IsStacked};
ghost use Rattle.game_rules.specs.Text.{game_at};
ghost use Rattle.game_rules.specs.Grammar.{IsGameText};
ghost use Rattle.game_rules.specs.Faults.{fault_at, IsAt, IsBadHeader, IsBadSize, IsBadColumn, IsGameOver, IsColumnFull, IsTrailing};
ghost use Rattle.game_rules.specs.declared.InputFault.{InputFault};
ghost use Rattle.game_rules.specs.declared.InputKind.TheVariants as kinds;

/// What is read is in the grammar and has the position that the grammar gives, and what is in the grammar is read.
pub fn what_is_read_is_in_the_grammar()
    ensures { (bytes : List ℕ) (p : Position) → (game_at bytes ≡ Ok p) ↔ IsGameText bytes p }
{}

/// A text has a fault of each of the six kinds at a place exactly where what stands before and behind the place is so,
/// in words of the text and of the rules of the game: a byte of the fixed parts is another byte or is missing; the
/// digits spell no number of columns or of rows that a board has, or no length of lines; the list of moves has a byte that is neither a column
/// letter nor its end, or has no byte; a letter stands after the end of the game; a letter names a full column while
/// the game goes on; or a byte follows the text.
pub fn a_text_that_is_no_game_has_its_fault()
    ensures bad_header { (bytes : List ℕ) (at : ℕ) → (game_at bytes ≡ Err (fault_at kinds.BadHeader at)) ↔ IsAt bytes at IsBadHeader }
    ensures bad_size { (bytes : List ℕ) (at : ℕ) → (game_at bytes ≡ Err (fault_at kinds.BadSize at)) ↔ IsAt bytes at IsBadSize }
    ensures bad_column { (bytes : List ℕ) (at : ℕ) → (game_at bytes ≡ Err (fault_at kinds.BadColumn at)) ↔ IsAt bytes at IsBadColumn }
    ensures game_over { (bytes : List ℕ) (at : ℕ) → (game_at bytes ≡ Err (fault_at kinds.GameOver at)) ↔ IsAt bytes at IsGameOver }
    ensures column_full { (bytes : List ℕ) (at : ℕ) → (game_at bytes ≡ Err (fault_at kinds.ColumnFull at)) ↔ IsAt bytes at IsColumnFull }
    ensures trailing { (bytes : List ℕ) (at : ℕ) → (game_at bytes ≡ Err (fault_at kinds.Trailing at)) ↔ IsAt bytes at IsTrailing }
{}

/// The position of a text is one of legal moves from the empty position of a board.
pub fn the_position_of_a_text_is_one_of_moves()
    ensures moves { (bytes : List ℕ) (p : Position) → game_at bytes ≡ Ok p
        → (board : Board) × (columns : List ℕ) × (is_board board ≡ true) × (played (empty_position board) columns ≡ Some p) }
    ensures board { (bytes : List ℕ) (p : Position) → game_at bytes ≡ Ok p → is_board (board_of p) ≡ true }
    ensures stacked { (bytes : List ℕ) (p : Position) → game_at bytes ≡ Ok p → IsStacked p }
    ensures empty { (bytes : List ℕ) (p : Position) → game_at bytes ≡ Ok p → empty_count p ≤ 100 }
{}

/// A game has at most 121 bytes. A longer text has its fault among its first 122, and what follows those decides
/// nothing: neither whether the text is a game, nor its fault.
pub fn a_long_text_is_no_game()
    ensures short { (bytes : List ℕ) (p : Position) → game_at bytes ≡ Ok p → length bytes ≤ 121 }
    ensures fault { (bytes : List ℕ) → 122 ≤ length bytes → (fault : InputFault) × (game_at bytes ≡ Err fault) × (fault.at < 122) }
    ensures prefix { (bytes : List ℕ) (n : ℕ) → 122 ≤ n → game_at (take n bytes) ≡ game_at bytes }
    ensures behind { (bytes more : List ℕ) → 122 ≤ length bytes → game_at (bytes ++ more) ≡ game_at bytes }
{}

/// The place of a fault is within the text, or right behind its last byte, and always among the first 122 places.
pub fn a_fault_is_near()
    ensures { (bytes : List ℕ) (fault : InputFault) → game_at bytes ≡ Err fault → (fault.at ≤ length bytes) × (fault.at < 122) }
{}
