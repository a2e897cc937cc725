//! The search as a plain recursion. What stays the same in it is made once and lent, and the lists of its positions hold
//! no more than the columns: neither a position's plan nor the text of a lemma stands in a frame. The table is asked
//! before all else, so a position that another path led to costs one look-up.
ghost use Rattle.std.specs.Prelude.{◌≡◌, ◌+◌, ◌<◌, ◌≤◌, true, false, List, Ok, Err, Some, None, length, map, IfOk, IfSome, OnOk};
ghost use Rattle.game_rules.specs.Position.{Position as Men, played, empty_count, end_of, side_to_move, has_room, after_move, open_columns};
ghost use Rattle.game_rules.specs.Mirror.{mirror};
ghost use Rattle.game_rules.specs.Questions.{side_asked};
ghost use Rattle.game_rules.specs.Value.{wins};
ghost use Rattle.game_rules.specs.Cost.{centre_out, count};
ghost use Rattle.proof_text.specs.Lemma.{claim_for, has_reason};
ghost use Rattle.proof_text.specs.Spelling.{greatest_number, longest_path, members_in};
ghost use Rattle.proof_text.specs.Right.{Shown, HasReason};
ghost use Rattle.proof_lines.specs.Shape.{cite_of, reason_viewed};
ghost use Rattle.rule_chooser.specs.Written.{written_list};
ghost use Rattle.deep_search.specs.Planned.{solved_within, plan_for, plan_in};
ghost use Rattle.proof_text.specs.Texts.{Entry};
ghost use Rattle.deep_search.specs.Lists.{EndsIn, FitsMoment, Continues};
ghost use Rattle.deep_search.specs.Search.{uncounted, stand, version_for, Searched, moment, Solves, StaysOpen, cites_from};
ghost use Rattle.deep_search.specs.Tables.{held, IsTrueTable, FitsTable, OnlyBelow, HasSame, KeepsEntry};
ghost use Rattle.deep_search.specs.declared.solving.SearchStop.TheVariants as stops;
ghost use Rattle.plan_rules.specs.declared.TheConstants.{MOST_MEMBERS};

use arrayvec::ArrayVec;
use board_bits::{Column, End, MOST_COLS, MOST_SQUARES, Position, Question, Side, centre_out};
use io_ports::{Failed, Sink};
use position_table::{Found, Table};
use proof_lines::{Cite, Claim, LemmaWriter, Reason, ReasonView};
use rule_chooser::Chooser;

/// The answer to whether a side wins, and the number of the lemma that shows it.
#[derive(Clone, Copy)]
pub struct Answer {
    pub yes: bool,
    pub lemma: u32,
}

/// Why a search stopped without an answer.
#[derive(Clone, Copy, Debug, PartialEq, Eq)]
pub enum SearchStop {
    /// The budget ran out.
    Spent,
    /// The sink failed.
    WriteFault,
}

/// What stays the same in a search: the question that is asked at each position, that a plan is looked for among the first
/// `reach` sets of zones, whether the table is asked for mirror images, and the order in which the columns are visited.
#[derive(Drop)]
struct Aim {
    question: Question,
    reach: u32,
    mirror: bool,
    order: ArrayVec<Column, MOST_COLS>,
}

/// Asks whether the question's side wins at a position, with lemmas that begin there. Each position entered takes 1 from the
/// budget. Then the table is asked; where it has an answer, that is taken. Elsewhere the position has its lemma put behind
/// those that it cites, and its answer is kept in the table. While the table is whole, no position has two lemmas. Want of
/// memory for the table is no fault. At a position with White to move, White is found not to win where
/// one of the first `reach` sets of zones gives a plan of Black's, which the lemma then rests on; `reach` is from 0, which
/// looks for no plan, and the chooser is lent for that alone. With `mirror` the table is asked for the mirror image of a
/// position that it doesn't have and that no plan answers, and what it has there is taken: the position's lemma then rests
/// on that one, and stands in proofs of the second version alone.
///
/// `Spent` comes only where the budget is below the count of the search, and then no lemma stands at the position itself;
/// `WriteFault` comes only where the sink's count of faults rose.
pub fn search<L: LemmaWriter, O: Sink>(
    position: &Position,
    question: Question,
    reach: u32,
    budget: &mut u32,
    table: &mut Table,
    chooser: &mut Chooser,
    lemmas: &mut L,
    out: &mut O,
    mirror: bool,
) -> Result<Answer, SearchStop>
    requires room { L.count lemmas.old + budget.old ≤ greatest_number }
    requires entries { IsTrueTable table.old (L.count lemmas.old) }
    ensures answer { IfOk result (λ answer. answer.yes ≡ wins (side_asked question) position.now) }
    ensures fell { OnOk result (budget.new < budget.old) }
    ensures left { OnOk result (budget.old ≤ budget.new + count (solved_within reach) (side_asked question) position.now) }
    ensures spent { result ≡ Err stops.Spent → budget.old < count (solved_within reach) (side_asked question) position.now }
    ensures searched { Searched (stand budget.old (L.count lemmas.old) (O.faults out.old)) (stand budget.new (L.count lemmas.new) (O.faults out.new)) result }
    ensures entries { IsTrueTable table.new (L.count lemmas.new) }
    ensures wrote { (known : List Shown) → length known ≡ L.count lemmas.old → FitsTable table.old known
        → Solves position.now position.now question reach (version_for mirror) known
        (moment table.old (O.written out.old)) (moment table.new (O.written out.new)) (L.count lemmas.new) result }
    ensures lists { (list : List Entry) (known : List Shown) → EndsIn list (O.written out.old)
        → FitsMoment position.now (L.count lemmas.old) list known (moment table.old (O.written out.old))
        → Continues position.now position.now question reach (version_for mirror) list known
        (moment table.old (O.written out.old)) (moment table.new (O.written out.new)) (L.count lemmas.new) result }
{
    let aim = Aim {
        question,
        reach,
        mirror,
        order: centre_out(position.size()),
    };
    let ended = position.ended();
    let mut path = ArrayVec::new();
    solve(
        position, ended, &aim, &mut path, budget, table, chooser, lemmas, out,
    )
}

/// Asks the question at a position, to which `path` leads from the root, and which has ended as `ended` says.
#[cycle(solve)]
fn solve<L: LemmaWriter, O: Sink>(
    position: &Position,
    ended: Option<End>,
    aim: &Aim,
    path: &mut ArrayVec<Column, MOST_SQUARES>,
    budget: &mut u32,
    table: &mut Table,
    chooser: &mut Chooser,
    lemmas: &mut L,
    out: &mut O,
) -> Result<Answer, SearchStop>
    requires ended { ended ≡ end_of position.now }
    requires order { aim.now.order.items ≡ centre_out (length position.now.columns) }
    requires deep { length path.old.items + empty_count position.now ≤ longest_path }
    requires room { L.count lemmas.old + budget.old ≤ greatest_number }
    requires entries { IsTrueTable table.old (L.count lemmas.old) }
    ensures answer { IfOk result (λ answer. answer.yes ≡ wins (side_asked aim.now.question) position.now) }
    ensures fell { OnOk result (budget.new < budget.old) }
    ensures left { OnOk result (budget.old ≤ budget.new + count (solved_within aim.now.reach) (side_asked aim.now.question) position.now) }
    ensures spent { result ≡ Err stops.Spent → budget.old < count (solved_within aim.now.reach) (side_asked aim.now.question) position.now }
    ensures path { path.new.items ≡ path.old.items }
    ensures below { OnlyBelow (empty_count position.now + 1) table.old table.new }
    ensures searched { Searched (stand budget.old (L.count lemmas.old) (O.faults out.old)) (stand budget.new (L.count lemmas.new) (O.faults out.new)) result }
    ensures entries { IsTrueTable table.new (L.count lemmas.new) }
    ensures wrote { (root : Men) (known : List Shown) → played root path.old.items ≡ Some position.now
        → length known ≡ L.count lemmas.old → FitsTable table.old known
        → Solves root position.now aim.now.question aim.now.reach (version_for aim.now.mirror) known
        (moment table.old (O.written out.old)) (moment table.new (O.written out.new)) (L.count lemmas.new) result }
{
    let Some(left) = budget.checked_sub(1) else {
        return Err(SearchStop::Spent);
    };
    *budget = left;
    if let Some(found) = closed_here(position, ended, path, aim, table, chooser, lemmas, out) {
        return found;
    }
    solve_by_moves(position, aim, path, budget, table, chooser, lemmas, out)
}

/// Asks the question at a position where no answer comes without a move: after each move, up to the first that decides.
/// What the position itself takes from the budget is already taken.
#[cycle(solve)]
#[inline(always)]
fn solve_by_moves<L: LemmaWriter, O: Sink>(
    position: &Position,
    aim: &Aim,
    path: &mut ArrayVec<Column, MOST_SQUARES>,
    budget: &mut u32,
    table: &mut Table,
    chooser: &mut Chooser,
    lemmas: &mut L,
    out: &mut O,
) -> Result<Answer, SearchStop>
    requires order { aim.now.order.items ≡ centre_out (length position.now.columns) }
    requires deep { length path.old.items + empty_count position.now ≤ longest_path }
    requires room { L.count lemmas.old + budget.old < greatest_number }
    requires entries { IsTrueTable table.old (L.count lemmas.old) }
    requires going { end_of position.now ≡ None }
    requires unsolved { solved_within aim.now.reach (side_asked aim.now.question) position.now ≡ false }
    requires absent { held table.old position.now aim.now.question ≡ None }
    ensures answer { IfOk result (λ answer. answer.yes ≡ wins (side_asked aim.now.question) position.now) }
    ensures fell { OnOk result (budget.new ≤ budget.old) }
    ensures left { OnOk result (budget.old + 1 ≤ budget.new + count (solved_within aim.now.reach) (side_asked aim.now.question) position.now) }
    ensures spent { result ≡ Err stops.Spent → budget.old + 1 < count (solved_within aim.now.reach) (side_asked aim.now.question) position.now }
    ensures path { path.new.items ≡ path.old.items }
    ensures below { OnlyBelow (empty_count position.now + 1) table.old table.new }
    ensures searched { Searched (stand (budget.old + 1) (L.count lemmas.old) (O.faults out.old)) (stand budget.new (L.count lemmas.new) (O.faults out.new)) result }
    ensures entries { IsTrueTable table.new (L.count lemmas.new) }
    ensures wrote { (root : Men) (known : List Shown) → played root path.old.items ≡ Some position.now
        → length known ≡ L.count lemmas.old → FitsTable table.old known
        → Solves root position.now aim.now.question aim.now.reach (version_for aim.now.mirror) known
        (moment table.old (O.written out.old)) (moment table.new (O.written out.new)) (L.count lemmas.new) result }
{
    let own = aim.question.side() == position.to_move();
    let order = aim.order.as_slice();
    let mut numbers = [0; MOST_COLS];
    for column in order {
        if position.has_room(*column) {
            let found = solve_after(
                position, *column, aim, path, budget, table, chooser, lemmas, out,
            )?;
            if found.yes == own {
                let one = Reason::One(Cite {
                    column: *column,
                    lemma: found.lemma,
                });
                return put_lemma(position, path, aim, own, &one, table, lemmas, out);
            }
            numbers[column.index() as usize] = found.lemma;
        }
    }
    let cites = cites_from(position, &numbers);
    let all = Reason::All(&cites);
    put_lemma(position, path, aim, !own, &all, table, lemmas, out)
}

/// Asks the question after a move into a column that has room.
#[cycle(solve)]
#[inline(always)]
fn solve_after<L: LemmaWriter, O: Sink>(
    position: &Position,
    column: Column,
    aim: &Aim,
    path: &mut ArrayVec<Column, MOST_SQUARES>,
    budget: &mut u32,
    table: &mut Table,
    chooser: &mut Chooser,
    lemmas: &mut L,
    out: &mut O,
) -> Result<Answer, SearchStop>
    requires order { aim.now.order.items ≡ centre_out (length position.now.columns) }
    requires deep { length path.old.items + empty_count position.now ≤ longest_path }
    requires room { L.count lemmas.old + budget.old ≤ greatest_number }
    requires entries { IsTrueTable table.old (L.count lemmas.old) }
    requires going { end_of position.now ≡ None }
    requires open { has_room position.now column ≡ true }
    ensures answer { IfOk result (λ answer. answer.yes ≡ wins (side_asked aim.now.question) (after_move position.now column)) }
    ensures fell { OnOk result (budget.new < budget.old) }
    ensures left { OnOk result (budget.old ≤ budget.new
        + count (solved_within aim.now.reach) (side_asked aim.now.question) (after_move position.now column)) }
    ensures spent { result ≡ Err stops.Spent
        → budget.old < count (solved_within aim.now.reach) (side_asked aim.now.question) (after_move position.now column) }
    ensures path { path.new.items ≡ path.old.items }
    ensures below { OnlyBelow (empty_count position.now) table.old table.new }
    ensures searched { Searched (stand budget.old (L.count lemmas.old) (O.faults out.old)) (stand budget.new (L.count lemmas.new) (O.faults out.new)) result }
    ensures entries { IsTrueTable table.new (L.count lemmas.new) }
    ensures wrote { (root : Men) (known : List Shown) → played root path.old.items ≡ Some position.now
        → length known ≡ L.count lemmas.old → FitsTable table.old known
        → Solves root (after_move position.now column) aim.now.question aim.now.reach (version_for aim.now.mirror) known
        (moment table.old (O.written out.old)) (moment table.new (O.written out.new)) (L.count lemmas.new) result }
{
    let next = position.after(column);
    let ended = next.ended_by(position.to_move());
    path.push(column);
    let found = solve(&next, ended, aim, path, budget, table, chooser, lemmas, out);
    path.pop();
    found
}

/// What answers the question at a position without a move: the table, or else a plan, the table's answer at the mirror
/// image, or the end of the game, whose lemma is then put. `None` comes only where there is none of these, and then
/// nothing was put.
#[inline(always)]
fn closed_here<L: LemmaWriter, O: Sink>(
    position: &Position,
    ended: Option<End>,
    path: &[Column],
    aim: &Aim,
    table: &mut Table,
    chooser: &mut Chooser,
    lemmas: &mut L,
    out: &mut O,
) -> Option<Result<Answer, SearchStop>>
    requires ended { ended ≡ end_of position.now }
    requires deep { length path.now ≤ longest_path }
    requires room { L.count lemmas.old < greatest_number }
    requires entries { IsTrueTable table.old (L.count lemmas.old) }
    ensures answer { IfSome result (λ found. IfOk found (λ answer. answer.yes ≡ wins (side_asked aim.now.question) position.now)) }
    ensures unspent { IfSome result (λ found. found ≡ Err stops.Spent → ⊥) }
    ensures below { OnlyBelow (empty_count position.now + 1) table.old table.new }
    ensures searched { IfSome result (λ found. Searched (stand 1 (L.count lemmas.old) (O.faults out.old)) (stand 0 (L.count lemmas.new) (O.faults out.new)) found) }
    ensures entries { IsTrueTable table.new (L.count lemmas.new) }
    ensures open { result ≡ None → StaysOpen position.now aim.now.question aim.now.reach table.old table.new }
    ensures none { result ≡ None → (lemmas.new ≡ lemmas.old) × (out.new ≡ out.old) }
    ensures wrote { (root : Men) (known : List Shown) → played root path.now ≡ Some position.now
        → length known ≡ L.count lemmas.old → FitsTable table.old known
        → IfSome result (λ found. Solves root position.now aim.now.question aim.now.reach (version_for aim.now.mirror) known
        (moment table.old (O.written out.old)) (moment table.new (O.written out.new)) (L.count lemmas.new) found) }
{
    if let Some(kept) = look_up(table, position, aim.question) {
        return Some(Ok(Answer {
            yes: kept.answer,
            lemma: kept.lemma,
        }));
    }
    if ended.is_none() && is_planned(position, aim, chooser) {
        let plan = Reason::Plan(chooser.plan());
        return Some(put_lemma(position, path, aim, false, &plan, table, lemmas, out));
    }
    if let Some(kept) = look_up_image(table, position, aim) {
        let image = Reason::Mirror(kept.lemma);
        return Some(put_lemma(position, path, aim, kept.answer, &image, table, lemmas, out));
    }
    if let Some(end) = ended {
        let yes = aim.question.side().win() == end;
        let ended = Reason::Ended;
        return Some(put_lemma(position, path, aim, yes, &ended, table, lemmas, out));
    }
    None
}

/// What the table has at the position for the question.
#[inline(always)]
#[tactic(auto, using(crate::proofs::Tables::found_held))]
fn look_up(table: &mut Table, position: &Position, question: Question) -> Option<Found>
    ensures found { result ≡ held table.old position.now question }
    ensures same { HasSame table.old table.new }
{
    table.find(position, question)
}

/// What the table has at the mirror image of the position, where it is asked for images.
#[inline(always)]
fn look_up_image(table: &mut Table, position: &Position, aim: &Aim) -> Option<Found>
    ensures found { IfSome result (λ found. held table.old (mirror position.now) aim.now.question ≡ Some found) }
    ensures asked { IfSome result (λ found. aim.now.mirror ≡ true) }
    ensures same { HasSame table.old table.new }
{
    if aim.mirror {
        look_up(table, &position.mirror(), aim.question)
    } else {
        None
    }
}

/// Keeps an answer in the table, where memory is found for it.
#[inline(always)]
#[tactic(auto, using(crate::proofs::Tables::kept_or_not))]
fn keep(table: &mut Table, position: &Position, question: Question, found: Found)
    requires absent { held table.old position.now question ≡ None }
    ensures { KeepsEntry position.now question found table.old table.new }
{
    let _memory = table.keep(position, question, found);
}

/// Whether a plan answers the question at a position: the chooser then has it. It isn't asked where White makes a line at
/// once, since White wins there and no plan stands.
#[inline(always)]
fn is_planned(position: &Position, aim: &Aim, chooser: &mut Chooser) -> bool
    requires going { end_of position.now ≡ None }
    ensures solved { result ≡ solved_within aim.now.reach (side_asked aim.now.question) position.now }
    ensures plan { result ≡ true → plan_for aim.now.reach (side_asked aim.now.question) position.now ≡ Some (written_list chooser.new) }
{
    if aim.reach == 0 || aim.question == Question::BlackWins || position.to_move() == Side::Black {
        return false;
    }
    if wins_at_once(position) {
        return false;
    }
    chooser.give(position, aim.reach)
}

/// Whether the side to move makes a line by one move.
fn wins_at_once(position: &Position) -> bool
    requires going { end_of position.now ≡ None }
    ensures { result ≡ true → wins (side_to_move position.now) position.now ≡ true }
{
    for index in 0..position.size().cols() {
        let column = position.size().nth_column(index);
        if position.has_room(column) && wins_by(position, column) {
            return true;
        }
    }
    false
}

/// Whether the side to move makes a line by a move into a column that has room.
#[inline(always)]
fn wins_by(position: &Position, column: Column) -> bool
    requires going { end_of position.now ≡ None }
    requires room { has_room position.now column ≡ true }
    ensures { result ≡ true → wins (side_to_move position.now) (after_move position.now column) ≡ true }
{
    let mover = position.to_move();
    match position.after(column).ended_by(mover) {
        Some(end) => mover.win() == end,
        None => false,
    }
}

/// Puts the lemma of a position, and answers with its number.
#[inline(always)]
fn put_lemma<L: LemmaWriter, O: Sink>(
    position: &Position,
    path: &[Column],
    aim: &Aim,
    yes: bool,
    reason: &ReasonView<'_>,
    table: &mut Table,
    lemmas: &mut L,
    out: &mut O,
) -> Result<Answer, SearchStop>
    requires true_now { yes ≡ wins (side_asked aim.now.question) position.now }
    requires planned { plan_in (reason_viewed reason.now) ≡ plan_for aim.now.reach (side_asked aim.now.question) position.now }
    requires absent { held table.old position.now aim.now.question ≡ None }
    requires entries { IsTrueTable table.old (L.count lemmas.old) }
    requires room { L.count lemmas.old < greatest_number }
    requires deep { length path.now ≤ longest_path }
    requires short { length (members_in (reason_viewed reason.now)) ≤ MOST_MEMBERS }
    requires had { has_reason (version_for aim.now.mirror) (reason_viewed reason.now) ≡ true }
    ensures answer { IfOk result (λ answer. answer.yes ≡ wins (side_asked aim.now.question) position.now) }
    ensures unspent { result ≡ Err stops.Spent → ⊥ }
    ensures searched { Searched (stand 1 (L.count lemmas.old) (O.faults out.old)) (stand 0 (L.count lemmas.new) (O.faults out.new)) result }
    ensures entries { IsTrueTable table.new (L.count lemmas.new) }
    ensures below { OnlyBelow (empty_count position.now + 1) table.old table.new }
    ensures wrote { (root : Men) (known : List Shown) → played root path.now ≡ Some position.now
        → length known ≡ L.count lemmas.old → FitsTable table.old known
        → HasReason known position.now (claim_for (side_asked aim.now.question) yes) (reason_viewed reason.now)
        → Solves root position.now aim.now.question aim.now.reach (version_for aim.now.mirror) known
        (moment table.old (O.written out.old)) (moment table.new (O.written out.new)) (L.count lemmas.new) result }
{
    match lemmas.put(out, path, Claim::of(aim.question.side(), yes), reason) {
        Ok(lemma) => {
            let found = Found { lemma, answer: yes };
            keep(table, position, aim.question, found);
            Ok(Answer { yes, lemma })
        }
        Err(Failed) => Err(SearchStop::WriteFault),
    }
}

/// The playable columns, each with the lemma whose number stands at its place.
fn cites_from(position: &Position, numbers: &[u32; MOST_COLS]) -> ArrayVec<Cite, MOST_COLS>
    ensures { map cite_of result.items ≡ cites_from numbers.now (open_columns position.now) }
{
    let mut cites = ArrayVec::new();
    for index in 0..position.size().cols() {
        let column = position.size().nth_column(index);
        if position.has_room(column) {
            cites.push(Cite {
                column,
                lemma: numbers[index as usize],
            });
        }
    }
    cites
}
