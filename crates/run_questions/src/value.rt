//! The value of a position alone.
ghost use Rattle.std.specs.Prelude.{◌≡◌, ◌≢◌, ◌<◌, ◌≤◌, []};
ghost use Rattle.game_rules.specs.Cost.{cost};
ghost use Rattle.proof_text.specs.Right.{IsTrueVerdict};
ghost use Rattle.proof_text.specs.Spelling.{greatest_number};
ghost use Rattle.proof_text.specs.declared.Verdict.TheVariants as verdicts;
ghost use Rattle.deep_search.specs.Planned.{solved_within};
ghost use Rattle.run_questions.specs.Found.{HasFound};

use crate::questions::ask;
use board_bits::Position;
use cert_format::{Verdict, Version};
use deep_search::Table;
use io_ports::NullSink;
use proof_front::Chooser;

/// What a search finds of a position, whose proof is written nowhere: its value for the side to move, which a proof of the
/// first version of at most `nodes` lemmas shows; or, only where `nodes` is below the position's cost, `Unknown`. The search may enter `nodes` positions, takes plans from the first `reach` sets
/// of zones, for which the chooser is lent, and keeps what it finds in the table, which has no entry yet.
pub fn find_value(
    position: &Position,
    nodes: u32,
    reach: u32,
    table: &mut Table,
    chooser: &mut Chooser,
) -> Verdict
    requires nodes { nodes ≤ greatest_number }
    requires empty { table.old.entries ≡ [] }
    ensures says { IsTrueVerdict position.now result }
    ensures found { result ≢ verdicts.Unknown → HasFound nodes reach position.now result }
    ensures dear { result ≡ verdicts.Unknown → nodes < cost (solved_within reach) position.now }
{
    let asked = ask(
        position,
        nodes,
        reach,
        Version::One,
        table,
        &mut None,
        chooser,
        &mut NullSink,
    );
    asked.unwrap_or(Verdict::Unknown)
}
