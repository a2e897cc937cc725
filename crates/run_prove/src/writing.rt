//! The text of a proof, as it is written: its head, what both questions write, and its verdict.
ghost use Rattle.std.specs.Prelude.{◌≡◌, ℕ, List, [], ◌≤◌, ◌<◌, Ok, is_ok, IfOk};
ghost use Rattle.device_rules.specs.Devices.{HasCause, AppendsPrefix};
ghost use Rattle.game_rules.specs.Cost.{cost};
ghost use Rattle.game_rules.specs.Game.{IsTextOf};
ghost use Rattle.game_rules.specs.declared.Side.TheVariants as sides;
ghost use Rattle.proof_text.specs.Spelling.{greatest_number, verdict_line};
ghost use Rattle.proof_text.specs.declared.Verdict.TheVariants as verdicts;
ghost use Rattle.run_questions.specs.Planned.{solved_within};
ghost use Rattle.run_questions.specs.SizedFronts.{slots_of, IsAfter};
ghost use Rattle.run_prove.specs.Proof.{Writes};

use board_bits::Game;
use io_ports::{Failed, Sink, put_all};
use position_table::Table;
use proof_text::{Verdict, Version};
use run_questions::{Chooser, Line, SearchStop, SizedFront, ask, head_of, print_line};

/// Writes a proof of this version, of the game's position, from a search that may enter `nodes` positions, with remarks of the
/// front, where there is one. The verdict is `Unknown` only where that number is below the position's cost.
pub(crate) fn write_proof<O: Sink>(
    game: &Game,
    nodes: u32,
    reach: u32,
    version: Version,
    table: &mut Table,
    front: &mut Option<SizedFront>,
    chooser: &mut Chooser,
    out: &mut O,
) -> Result<Verdict, Failed>
    requires nodes { nodes ≤ greatest_number }
    requires empty { table.old.entries ≡ [] }
    requires front { IsAfter game.now.position sides.White reach 0 front.old }
    ensures written { (text : List ℕ) → IsTextOf text game.now → Writes version nodes reach (slots_of front.old) text game.now.position (O.written out.old) (O.written out.new) result }
    ensures unknown { result ≡ Ok verdicts.Unknown → nodes < cost (solved_within reach) game.now.position }
    ensures cause { HasCause (O.faults out.old) (O.faults out.new) result }
{
    put_all(out, head_of(version, game).as_slice())?;
    match ask(
        game.position(),
        nodes,
        reach,
        version,
        table,
        front,
        chooser,
        out,
    ) {
        Ok(verdict) => write_verdict(verdict, out),
        Err(SearchStop::Spent) => write_verdict(Verdict::Unknown, out),
        Err(SearchStop::WriteFault) => Err(Failed),
    }
}

/// Writes the line of the verdict, and hands on what was written.
fn write_verdict<O: Sink>(verdict: Verdict, out: &mut O) -> Result<Verdict, Failed>
    ensures verdict { IfOk result (λ v. v ≡ verdict) }
    ensures written { AppendsPrefix (is_ok result) (O.written out.old) (O.written out.new) (verdict_line verdict) }
    ensures cause { HasCause (O.faults out.old) (O.faults out.new) result }
{
    print_line(&Line::Verdict(verdict), out)?;
    out.flush()?;
    Ok(verdict)
}
