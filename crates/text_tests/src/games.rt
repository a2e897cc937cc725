//! Games made from a number, by rows that were worked out by hand.
use board_bits::{Size, read_game};
use drill_games::next_game;
use std::test::Fail;

/// Of the games that the number 1 makes on a board of four columns and four rows: the most moves, the text of the game,
/// and the state behind it.
const GAMES: [(u32, &str, u32); 6] = [
    (0, "board 4 4\nmoves -", 1),
    (1, "board 4 4\nmoves d", 48_271),
    (2, "board 4 4\nmoves dc", 182_605_794),
    (8, "board 4 4\nmoves dccbbdbb", 854_716_505),
    (12, "board 4 4\nmoves dccbbdbbddcc", 1_203_428_207),
    (100, "board 4 4\nmoves dccbbdbbddccaaa", 1_271_135_913),
];

#[test]
fn the_first_game_follows_the_generator(rt: HostRuntime) -> Result<(), Fail> {
    let size = Size::new(4, 4)?;
    for (moves, text, after) in GAMES {
        let mut state = 1;
        let game = next_game(size, moves, &mut state);
        let wanted = read_game(text.as_bytes())?;
        assert!(rt; game.same(&wanted), "{text}");
        assert!(rt; state == after, "{text}");
    }
    Ok(())
}

#[test]
fn the_next_game_goes_on_from_the_state(rt: HostRuntime) -> Result<(), Fail> {
    let size = Size::new(4, 4)?;
    let mut state = 1;
    let games = [
        next_game(size, 2, &mut state),
        next_game(size, 2, &mut state),
    ];
    for (game, text) in games
        .iter()
        .zip(["board 4 4\nmoves dc", "board 4 4\nmoves cb"])
    {
        let wanted = read_game(text.as_bytes())?;
        assert!(rt; game.same(&wanted), "{text}");
    }
    Ok(())
}
