//! The head of a proof: the line that names its version, and the two lines of its game.
ghost use Rattle.std.specs.Prelude.{◌≡◌, ◌≤◌, MatchResult, IfErr};
ghost use Rattle.io_ports.specs.Reading.{pending, Reads, PassesLines};
ghost use Rattle.run_proof.specs.Whole.{version_named};
ghost use Rattle.run_proof.specs.Heads.{IsNamed, Begins, IsFirstStop, StopsBy, head_lines};

use crate::stop::{ProofStop, bad_line};
use board_bits::Game;
use cert_format::{Version, first_line};
use io_ports::{LineGot, Lines, Source};
use run_frame::{InputStop, read_played_game};

/// The head of a proof: the version that it names, and its game.
#[derive(Drop)]
pub struct Head {
    pub version: Version,
    pub game: Game,
}

/// Reads the head of a proof: the line that names a version that is asked for, or one of both, and the game. Where that isn't
/// named, the first line is refused, and no more is read.
pub fn read_head<S: Source>(
    asked: Option<Version>,
    lines: &mut Lines,
    source: &mut S,
) -> Result<Head, ProofStop>
    ensures answer { Reads (pending lines.old (S.left source.old) (S.last_read source.old))
        (pending lines.new (S.left source.new) (S.last_read source.new))
        (λ bytes rest. MatchResult result (λ head. PassesLines 3 bytes rest × Begins asked head bytes rest)
        (λ stop. PassesLines (head_lines stop) bytes rest × StopsBy asked bytes (S.faults source.old) (S.faults source.new) stop)) }
    ensures first { IfErr result IsFirstStop }
    ensures later { S.faults source.old ≤ S.faults source.new }
{
    let version = read_version(asked, lines, source)?;
    let game = read_played_game(lines, source)?;
    Ok(Head { version, game })
}

/// Reads the line that names the format, and answers the version, which is one that is asked for.
fn read_version<S: Source>(
    asked: Option<Version>,
    lines: &mut Lines,
    source: &mut S,
) -> Result<Version, ProofStop>
    ensures answer { Reads (pending lines.old (S.left source.old) (S.last_read source.old))
        (pending lines.new (S.left source.new) (S.last_read source.new))
        (λ bytes rest. PassesLines 1 bytes rest × MatchResult result (λ version. IsNamed asked version bytes rest)
        (StopsBy asked bytes (S.faults source.old) (S.faults source.new))) }
    ensures first { IfErr result IsFirstStop }
    ensures later { S.faults source.old ≤ S.faults source.new }
{
    if let LineGot::Failed = lines.next(source) {
        return Err(ProofStop::Input(InputStop::Read));
    }
    match version_named(asked, lines.text()) {
        Some(version) => Ok(version),
        None => Err(bad_line(1)),
    }
}

/// The version that a first line names, where it is one that is asked for.
fn version_named(asked: Option<Version>, first: &[u8]) -> Option<Version>
    ensures { result ≡ version_named asked first.now }
{
    match asked {
        Some(version) if first == first_line(version) => Some(version),
        None if first == first_line(Version::One) => Some(Version::One),
        None if first == first_line(Version::Two) => Some(Version::Two),
        Some(_) | None => None,
    }
}
