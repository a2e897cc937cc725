//! Every game in which Black plays by a small plan.
ghost use Rattle.std.specs.Prelude.{◌≡◌, ◌<◌, true, None, IfSome};
ghost use Rattle.game_rules.specs.Position.{end_of, has_room, empty_count};
ghost use Rattle.rule_compat.specs.Planned.{IsReached};

use board_bits::{Column, End, Position, read_game};
use plan_lines::{Plan, read_plan};
use std::test::Fail;

const SMALL: &[u8] = b"board 4 4\nmoves -\n";

/// A game, a plan at its end, and how many games White can play from there.
const PLANS: [(&[u8], &str, u32); 5] = [
    (
        SMALL,
        "plan CE:a1 CE:a3 CE:b1 CE:b3 BI:c1,d1 LI:c2-c4,d2-d4",
        5_040,
    ),
    (
        SMALL,
        "plan CE:a1 CE:a3 CE:b1 CE:b3 BI:c1,d1 HI:c2,d2",
        3_360,
    ),
    (
        b"board 4 4\nmoves daddcd\n",
        "plan BC:a2,b1,c2 CE:a3 CE:b3 CE:c3",
        44,
    ),
    (
        b"board 4 4\nmoves cccdcd\n",
        "plan CE:a1 CE:a3 CE:b1 CE:b3 CE:d3 AE:a2h",
        14,
    ),
    (
        b"board 5 4\nmoves abbaabbaddceedee\n",
        "plan BI:c2,d4 CE:c3 SB:b1u,d4,c2",
        2,
    ),
];

/// The plan of a line at the position of a game.
fn plan_of(game: &[u8], line: &str) -> Result<Plan, Fail> {
    let position = read_game(game)?;
    let list = read_plan(line.as_bytes(), position.size())
        .ok()
        .ok_or("no list")?;
    Ok(
        Plan::check(&position, list.as_slice())
            .ok()
            .ok_or("no plan")?,
    )
}

/// The position after a move of White's and the plan's answer; none where the move ends the game.
fn after_turn(plan: &Plan, now: &Position, column: Column) -> Option<Position>
    requires reached { IsReached plan.now now.now }
    requires going { end_of now.now ≡ None }
    requires room { has_room now.now column ≡ true }
    ensures reached { IfSome result (λ next. IsReached plan.now next) }
    ensures fewer { IfSome result (λ next. empty_count next < empty_count now.now) }
{
    let last = now.playable(column)?;
    let answered = now.after(column);
    if answered.ended().is_some() {
        return None;
    }
    let reply = plan.reply(&answered, last);
    Some(answered.after(reply.column()))
}

/// How many games White can play from here, where Black replies by the plan; none where White gets a line in one of
/// them, or fills the board.
fn games_from(plan: &Plan, now: &Position) -> Option<u32>
    requires reached { IsReached plan.now now.now }
    requires going { end_of now.now ≡ None }
{
    let mut games: u32 = 0;
    for index in 0..now.size().cols() {
        let column = now.size().nth_column(index);
        if now.has_room(column) {
            let next = after_turn(plan, now, column)?;
            let further = match next.ended() {
                Some(End::White) => return None,
                Some(_) => 1,
                None => games_from(plan, &next)?,
            };
            games = games.checked_add(further)?;
        }
    }
    Some(games)
}

/// The same from the plan's own position.
fn games_of(plan: &Plan) -> Option<u32> {
    games_from(plan, plan.at())
}

#[test]
fn white_has_no_line_whatever_it_plays(_rt: HostRuntime) -> Result<(), Fail> {
    for (game, line, games) in PLANS {
        if games_of(&plan_of(game, line)?) != Some(games) {
            return Err(line.into());
        }
    }
    Ok(())
}
