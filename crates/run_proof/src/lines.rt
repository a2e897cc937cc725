//! The lines of a proof behind its game, read by one loop for every command: each is judged as it comes, and a lemma is handed
//! to a taker as soon as it is accepted. Only what the lemmas show is kept. Reading stops at the first line that is refused.
ghost use Rattle.std.specs.Prelude.{◌≡◌, ◌≤◌, [], List, length, MatchResult, MatchOption, IfOk, IfErr, IfSome, is_some};
ghost use Rattle.device_rules.specs.Devices.{Rose};
ghost use Rattle.game_rules.specs.Position.{Position as Men, board_of};
ghost use Rattle.cert_checker.specs.Checking.{IsAt};
ghost use Rattle.proof_book.specs.Shape.{viewed};
ghost use Rattle.proof_text.specs.Lemma.{Lemma};
ghost use Rattle.run_proof.specs.Lines.{InStep, is_done, AddsNext, ReadsLines};
ghost use Rattle.run_proof.specs.Steps.{IsAccepted, AcceptsNext, EndsLines, StopsNext, StopsAtLine};
ghost use Rattle.run_proof.specs.Stops.{IsCausedBy};
ghost use Rattle.io_ports.specs.Reading.{pending};

use crate::head::Head;
use crate::stop::{ProofStop, bad_line};
use crate::taker::{LemmaTaker, take_line};
use board_bits::Size;
use cert_checker::{Accepted, AddStop, Checker, MOST_LEMMAS};
use cert_format::{LineBuffer, LineView, Version};
use io_ports::{LineGot, Lines, Sink, Source};
use run_frame::{InputStop, RunStop};
use std::alloc::Global;

/// The number of the first line behind the game.
const FIRST_NUMBER: u64 = 4;

/// A proof has no more lines.
const MOST_LINES: u64 = 20_000_000;

/// For so many lemmas room is made at a time.
const RESERVE: u32 = 1024;

/// How far the lines of a proof are read.
#[derive(Clone, Copy)]
pub enum Until {
    /// To the end of the input: behind the verdict no line may stand.
    End,
    /// To the verdict: what stands behind it is left.
    Verdict,
}

/// What was read of lines that are right.
#[derive(Clone, Copy)]
pub struct LinesRead {
    /// The verdict, and how many lemmas there are.
    pub accepted: Accepted,
    /// The number behind that of the last line.
    pub end: u64,
}

/// Where a line stands: the version and the board of its proof, its number, and how far is read.
#[derive(Clone, Copy)]
struct Place {
    version: Version,
    size: Size,
    until: Until,
    at: u64,
}

/// Reads the lines behind the head of a proof to their end, or to the verdict, or to what stops the reading: a line that is
/// refused, a source that failed, a lemma for which memory ran out, or a sink that failed. The taker, which has got no lemma
/// before, gets each after it was accepted, in their order.
pub fn read_lines<S: Source, T: LemmaTaker, O: Sink>(
    alloc: Global,
    head: &Head,
    until: Until,
    lines: &mut Lines,
    source: &mut S,
    taker: &mut T,
    out: &mut O,
) -> Result<LinesRead, RunStop<ProofStop>>
    requires { T.holds taker.old head.now.game.position [] }
    ensures read { ReadsLines until head.now.version (T.holds taker.new head.now.game.position) T.puts head.now.game.position
        (pending lines.old (S.left source.old) (S.last_read source.old)) (pending lines.new (S.left source.new) (S.last_read source.new))
        lines.new.ended (O.written out.old) (O.written out.new) result }
    ensures later { (S.faults source.old ≤ S.faults source.new) × (O.faults out.old ≤ O.faults out.new) }
    ensures cause { IfErr result (IsCausedBy (Rose (S.faults source.old) (S.faults source.new)) (Rose (O.faults out.old) (O.faults out.new))) }
{
    let root = *head.game.position();
    let mut checker = Checker::new(alloc, root);
    let size = root.size();
    let mut room = LineBuffer::new();
    let mut at = FIRST_NUMBER;
    while add_next(
        &mut checker,
        taker,
        &mut room,
        Place {
            version: head.version,
            size,
            until,
            at,
        },
        lines,
        source,
        out,
    )? {
        at += 1;
    }
    match checker.finish(at) {
        Ok(accepted) => Ok(LinesRead { accepted, end: at }),
        Err(refusal) => Err(RunStop::Own(ProofStop::Refused(refusal))),
    }
}

/// Adds the line at this place, unless the verdict was there and no more is to be read, and answers whether there was one. It
/// is read into the room.
fn add_next<S: Source, T: LemmaTaker, O: Sink>(
    checker: &mut Checker,
    taker: &mut T,
    room: &mut LineBuffer,
    place: Place,
    lines: &mut Lines,
    source: &mut S,
    out: &mut O,
) -> Result<bool, RunStop<ProofStop>>
    requires board { board_of checker.old.stands.root ≡ place.size }
    requires in_step { InStep (T.holds taker.old) checker.old.stands }
    ensures read { (ls : List Lemma) → T.holds taker.old checker.old.stands.root ls → length ls ≡ length checker.old.stands.known
        → AddsNext place.until place.version (T.holds taker.new checker.old.stands.root) T.puts
        (record { stands = checker.old.stands; next = place.at; lemmas = ls }) checker.new.stands
        (pending lines.old (S.left source.old) (S.last_read source.old)) (pending lines.new (S.left source.new) (S.last_read source.new))
        lines.new.ended (O.written out.old) (O.written out.new) result }
    ensures later { (S.faults source.old ≤ S.faults source.new) × (O.faults out.old ≤ O.faults out.new) }
    ensures cause { IfErr result (IsCausedBy (Rose (S.faults source.old) (S.faults source.new)) (Rose (O.faults out.old) (O.faults out.new))) }
{
    if is_done(place.until, checker) {
        return Ok(false);
    }
    match accept_next(
        checker,
        room,
        place.size,
        place.version,
        place.at,
        lines,
        source,
    ) {
        Ok(Some(line)) => {
            take_line(taker, &line, checker.position(), out)?;
            Ok(true)
        }
        Ok(None) => Ok(false),
        Err(stop) => Err(RunStop::Own(stop)),
    }
}

/// Whether no more lines are to be read.
fn is_done(until: Until, checker: &Checker) -> bool
    ensures { result ≡ is_done until (is_some checker.now.stands.verdict) }
{
    match until {
        Until::End => false,
        Until::Verdict => checker.has_verdict(),
    }
}

/// Accepts the next line, which has this number and is read into the room, and lends it from there; None where the input
/// has ended. The checker then stands at a lemma's position. It is made a part of each caller, so that no line is
/// moved.
#[inline(always)]
fn accept_next<'a, S: Source>(
    checker: &mut Checker,
    room: &'a mut LineBuffer,
    size: Size,
    version: Version,
    at: u64,
    lines: &mut Lines,
    source: &mut S,
) -> Result<Option<LineView<'a>>, ProofStop>
    requires board { board_of checker.old.stands.root ≡ size }
    ensures answer { MatchResult result
        (λ got. MatchOption got
        (EndsLines (pending lines.old (S.left source.old) (S.last_read source.old)) (pending lines.new (S.left source.new) (S.last_read source.new))
        checker.old.stands checker.new.stands lines.new.ended)
        (λ line. AcceptsNext (pending lines.old (S.left source.old) (S.last_read source.old)) (pending lines.new (S.left source.new) (S.last_read source.new))
        version checker.old.stands checker.new.stands at (viewed line)))
        (StopsNext (pending lines.old (S.left source.old) (S.last_read source.old)) (pending lines.new (S.left source.new) (S.last_read source.new))
        version checker.old.stands at (S.faults source.old) (S.faults source.new)) }
    ensures path { IfOk result (λ got. IfSome got (λ line. IsAt (viewed line) checker.new.path)) }
    ensures later { S.faults source.old ≤ S.faults source.new }
{
    match lines.next(source) {
        LineGot::Line => match accept_line(checker, room, size, version, at, lines.text()) {
            Ok(line) => Ok(Some(line)),
            Err(stop) => Err(stop),
        },
        LineGot::Long => Err(bad_line(at)),
        LineGot::Done => Ok(None),
        LineGot::Failed => Err(ProofStop::Input(InputStop::Read)),
    }
}

/// Accepts the line at this number, given by its bytes, which is read into the room, and lends it from there.
#[inline(always)]
fn accept_line<'a>(
    checker: &mut Checker,
    room: &'a mut LineBuffer,
    size: Size,
    version: Version,
    at: u64,
    bytes: &[u8],
) -> Result<LineView<'a>, ProofStop>
    requires board { board_of checker.old.stands.root ≡ size }
    ensures answer { MatchResult result
        (λ line. IsAccepted version checker.old.stands checker.new.stands at bytes.now (viewed line))
        (StopsAtLine version checker.old.stands at bytes.now) }
    ensures path { IfOk result (λ line. IsAt (viewed line) checker.new.path) }
{
    if at > MOST_LINES {
        return Err(bad_line(at));
    }
    let Ok(line) = room.read(bytes, size, version) else {
        return Err(bad_line(at));
    };
    make_room(checker, &line);
    match checker.add_view(at, &line) {
        Ok(()) => Ok(line),
        Err(AddStop::Refused(refusal)) => Err(ProofStop::Refused(refusal)),
        Err(AddStop::Memory(_)) => Err(ProofStop::Memory),
    }
}

/// Makes room for more lemmas where the line is one and there is none: for 1,024, or for those that a proof may still have.
/// What is refused is asked for again where the lemma is added, once it has passed its tests.
fn make_room(checker: &mut Checker, line: &LineView<'_>)
    ensures { checker.new.stands ≡ checker.old.stands }
{
    if matches!(line, LineView::Lemma(_)) && checker.spare() == 0 {
        let left = MOST_LEMMAS.saturating_sub(checker.lemmas());
        let _ = checker.reserve(left.min(RESERVE));
    }
}
