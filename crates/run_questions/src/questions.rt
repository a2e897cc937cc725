//! The two questions of a proof, one behind the other: whether White wins, and where it doesn't, whether Black does. For
//! each a front may grow before the search.
ghost use Rattle.std.specs.Prelude.{◌≡◌, ℕ, ◌+◌, ◌<◌, ◌≤◌, List, [], length, Err, IfOk, OnOk};
ghost use Rattle.device_rules.specs.Devices.{Rose};
ghost use Rattle.game_rules.specs.Cost.{cost, count};
ghost use Rattle.game_rules.specs.Questions.{side_asked};
ghost use Rattle.game_rules.specs.Value.{wins};
ghost use Rattle.game_rules.specs.declared.Side.TheVariants as sides;
ghost use Rattle.proof_text.specs.Right.{Shown};
ghost use Rattle.proof_text.specs.Spelling.{greatest_number};
ghost use Rattle.deep_search.specs.Planned.{solved_within};
ghost use Rattle.deep_search.specs.Search.{Moment, moment, version_for};
ghost use Rattle.deep_search.specs.Tables.{IsTrueTable, FitsTable};
ghost use Rattle.deep_search.specs.declared.solving.SearchStop.TheVariants as stops;
ghost use Rattle.run_questions.specs.Questions.{AsksSide, AnswersNo, Asks, won_by};
ghost use Rattle.run_questions.specs.SizedFronts.{slots_of, IsAfter, IsAfterSome};

use crate::fronts::{SizedFront, turn_to_black, write_remark};
use board_bits::{Position, Question, Side};
use cert_format::{LemmaOut, Verdict, Version};
use deep_search::{Answer, SearchStop, Table, search};
use io_ports::Sink;
use proof_front::Chooser;

/// Asks whether White wins and, where it doesn't, whether Black does, within one budget of `nodes` positions and with plans
/// from the first `reach` sets of zones, for which the chooser is lent. What is found is kept in the table, which has no entry
/// yet, and isn't searched again while it is there; where the lemmas are for a proof of the second version, nor are mirror
/// images. A front, where there is one, is that of White's question and grows before each. `Spent` comes only where the budget
/// is below the position's cost.
pub fn ask<O: Sink>(
    position: &Position,
    nodes: u32,
    reach: u32,
    version: Version,
    table: &mut Table,
    front: &mut Option<SizedFront>,
    chooser: &mut Chooser,
    out: &mut O,
) -> Result<Verdict, SearchStop>
    requires nodes { nodes ≤ greatest_number }
    requires empty { table.old.entries ≡ [] }
    requires front { IsAfter position.now sides.White reach 0 front.old }
    ensures asked { Asks version position.now nodes reach (slots_of front.old) (O.written out.old) (O.written out.new) result }
    ensures spent { result ≡ Err stops.Spent → nodes < cost (solved_within reach) position.now }
    ensures later { O.faults out.old ≤ O.faults out.new }
    ensures fault { result ≡ Err stops.WriteFault → Rose (O.faults out.old) (O.faults out.new) }
{
    let mut budget = nodes;
    let mut lemmas = LemmaOut::new();
    let white = ask_side(
        position,
        Question::WhiteWins,
        reach,
        version,
        &mut budget,
        table,
        front,
        chooser,
        &mut lemmas,
        out,
    )?;
    if white.yes {
        return Ok(won_by(Side::White, position.to_move(), white.lemma));
    }
    turn_to_black(front, position, chooser);
    ask_black(
        position,
        white.lemma,
        reach,
        version,
        &mut budget,
        table,
        front,
        chooser,
        &mut lemmas,
        out,
    )
}

/// Asks whether Black wins, where the lemma `white` shows that White doesn't.
fn ask_black<O: Sink>(
    position: &Position,
    white: u32,
    reach: u32,
    version: Version,
    budget: &mut u32,
    table: &mut Table,
    front: &mut Option<SizedFront>,
    chooser: &mut Chooser,
    lemmas: &mut LemmaOut,
    out: &mut O,
) -> Result<Verdict, SearchStop>
    requires room { lemmas.old + budget.old ≤ greatest_number }
    requires entries { IsTrueTable table.old lemmas.old }
    requires front { IsAfter position.now sides.Black reach 0 front.old }
    ensures asked { (nodes : ℕ) (before : Moment) → lemmas.old + budget.old ≤ nodes
        → AnswersNo version position.now reach (slots_of front.old) white before (moment table.old (O.written out.old)) lemmas.old
        → Asks version position.now nodes reach (slots_of front.old) before.bytes (O.written out.new) result }
    ensures spent { result ≡ Err stops.Spent → budget.old < count (solved_within reach) sides.Black position.now }
    ensures later { O.faults out.old ≤ O.faults out.new }
    ensures fault { result ≡ Err stops.WriteFault → Rose (O.faults out.old) (O.faults out.new) }
{
    let black = ask_side(
        position,
        Question::BlackWins,
        reach,
        version,
        budget,
        table,
        front,
        chooser,
        lemmas,
        out,
    )?;
    if black.yes {
        return Ok(won_by(Side::Black, position.to_move(), black.lemma));
    }
    Ok(Verdict::Draw(white, black.lemma))
}

/// Asks a question within the budget: first the front grows, where there is one, and its remark is written, and
/// then the search goes on behind the lemmas that stand already.
fn ask_side<O: Sink>(
    position: &Position,
    question: Question,
    reach: u32,
    version: Version,
    budget: &mut u32,
    table: &mut Table,
    front: &mut Option<SizedFront>,
    chooser: &mut Chooser,
    lemmas: &mut LemmaOut,
    out: &mut O,
) -> Result<Answer, SearchStop>
    requires room { lemmas.old + budget.old ≤ greatest_number }
    requires entries { IsTrueTable table.old lemmas.old }
    requires front { IsAfter position.now (side_asked question) reach 0 front.old }
    ensures answer { IfOk result (λ answer. answer.yes ≡ wins (side_asked question) position.now) }
    ensures left { OnOk result (budget.old ≤ budget.new + count (solved_within reach) (side_asked question) position.now) }
    ensures spent { result ≡ Err stops.Spent → budget.old < count (solved_within reach) (side_asked question) position.now }
    ensures few { OnOk result (lemmas.new + budget.new ≤ lemmas.old + budget.old) }
    ensures entries { IsTrueTable table.new lemmas.new }
    ensures front { IsAfterSome position.now (side_asked question) reach front.new }
    ensures slots { slots_of front.new ≡ slots_of front.old }
    ensures later { O.faults out.old ≤ O.faults out.new }
    ensures fault { result ≡ Err stops.WriteFault → Rose (O.faults out.old) (O.faults out.new) }
    ensures asked { (known : List Shown) → length known ≡ lemmas.old → FitsTable table.old known
        → AsksSide version position.now (side_asked question) reach (slots_of front.old) known (lemmas.old + budget.old)
        (moment table.old (O.written out.old)) (moment table.new (O.written out.new)) lemmas.new result }
{
    let Ok(()) = write_remark(front, question.side(), chooser, out) else {
        return Err(SearchStop::WriteFault);
    };
    search(
        position,
        question,
        reach,
        budget,
        table,
        chooser,
        lemmas,
        out,
        mirrors(version),
    )
}

/// Whether the search for a proof of this version looks for mirror images.
fn mirrors(version: Version) -> bool
    ensures { version_for result ≡ version }
{
    match version {
        Version::One => false,
        Version::Two => true,
    }
}

/// The verdict for the side to move where a side wins by this lemma.
fn won_by(winner: Side, to_move: Side, lemma: u32) -> Verdict
    ensures { result ≡ won_by winner to_move lemma }
{
    if winner == to_move {
        Verdict::Win(lemma)
    } else {
        Verdict::Loss(lemma)
    }
}
