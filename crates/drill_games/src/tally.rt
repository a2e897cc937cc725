//! How many games were told to be won, drawn and lost, and of how many nothing was told.
ghost use Rattle.std.specs.Prelude.{◌≡◌, ℕ, ◌+◌, ◌<◌, ◌^◌, List, [], ◌∷◌, ◌++◌};
ghost use Rattle.game_rules.specs.Position.{Position};
ghost use Rattle.drill_games.specs.Summary.{IsSummary, MayTell, counted};

use proof_text::Verdict;

/// The counts of games by what was told of each, for the side to move.
#[derive(Clone, Copy, Debug, PartialEq, Eq)]
pub struct Tally {
    /// The side to move wins.
    pub won: u32,
    /// Neither side wins.
    pub drawn: u32,
    /// The other side wins.
    pub lost: u32,
    /// Nothing was told.
    pub unknown: u32,
}

impl Tally {
    /// No game is counted. Whatever games cost, that is right of none.
    pub fn new() -> Tally
        ensures none { counted result ≡ 0 }
        ensures right { (cost : Position → ℕ) (nodes : ℕ) → IsSummary cost nodes [] result }
    {
        Tally {
            won: 0,
            drawn: 0,
            lost: 0,
            unknown: 0,
        }
    }

    /// Counts one game more, by the verdict on it; fewer than 4,294,967,295 games were counted before. Where the counts
    /// are right of some games, and the verdict may be told of another, they are right of these games with that one.
    pub fn count(&mut self, verdict: Verdict)
        requires { counted self.old < 4294967295 }
        ensures more { counted self.new ≡ counted self.old + 1 }
        ensures right { (cost : Position → ℕ) (nodes : ℕ) (games : List Position) (game : Position)
            → IsSummary cost nodes games self.old → MayTell cost nodes game verdict → IsSummary cost nodes (games ++ game ∷ []) self.new }
    {
        match verdict {
            Verdict::Win(_) => self.won += 1,
            Verdict::Draw(..) => self.drawn += 1,
            Verdict::Loss(_) => self.lost += 1,
            Verdict::Unknown => self.unknown += 1,
        }
    }
}
