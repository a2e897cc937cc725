//! What is written of a proof: its head, the lemmas that are reached, and its verdict.
ghost use Rattle.std.specs.Prelude.{◌≡◌, ◌++◌, length, is_ok};
ghost use Rattle.device_rules.specs.Devices.{HasCause, AppendsPrefix};
ghost use Rattle.game_rules.specs.Game.{board_played};
ghost use Rattle.proof_text.specs.Texts.{head_of};
ghost use Rattle.tool_text.specs.Trim.{CitesEarlier, numbers_named, trimmed_lines};
ghost use Rattle.proof_tools.specs.Reach.{reach_of, AreWithin};

use board_bits::Game;
use io_ports::{Failed, Sink, put_all};
use proof_tools::{Reach, Verdict, Version, head_of, print_trimmed};
use run_proof::Book;

/// Writes the head of a proof, and those of its lemmas that are reached with its verdict, and hands on what was written.
pub(crate) fn write_trimmed<O: Sink>(
    version: Version,
    game: &Game,
    book: &Book,
    reach: &Reach,
    verdict: &Verdict,
    out: &mut O,
) -> Result<(), Failed>
    requires earlier { CitesEarlier 1 book.now }
    requires named { AreWithin (length book.now) (numbers_named verdict.now) }
    requires made { reach.now ≡ reach_of book.now verdict.now }
    ensures written { AppendsPrefix (is_ok result) (O.written out.old) (O.written out.new)
        (head_of version (board_played game.now) game.now.moves ++ trimmed_lines book.now verdict.now) }
    ensures cause { HasCause (O.faults out.old) (O.faults out.new) result }
{
    put_head(version, game, out)?;
    print_trimmed(book, reach, verdict, out)?;
    out.flush()
}

/// Writes the head of a proof of this version.
fn put_head<O: Sink>(version: Version, game: &Game, out: &mut O) -> Result<(), Failed>
    ensures written { AppendsPrefix (is_ok result) (O.written out.old) (O.written out.new) (head_of version (board_played game.now) game.now.moves) }
    ensures cause { HasCause (O.faults out.old) (O.faults out.new) result }
{
    put_all(out, head_of(version, game).as_slice())
}
