//! A proof in which two paths lead to one position is accepted with memory that was had before. Lines that are refused
//! are examples.
use board_bits::{Size, read_game};
use cert_checker::{Accepted, AddStop, Checker, PlanFault, Refusal, Verdict, Why};
use cert_format::{Version, read_line};
use std::test::Fail;

const GAME: &[u8] = b"board 4 4\nmoves cdccddcdaabb\n";

/// The number of the first line behind the game.
const FIRST: u64 = 4;

/// A proof behind that game. Its fifth lemma cites the first, which stands at the position by another path.
const PROOF: [&str; 17] = [
    "1 aabb W- end",
    "2 aab W- one b 1",
    "3 aa W- all b:2",
    "4 a W- one a 3",
    "5 bba W- one a 1",
    "6 bb W- all a:5",
    "7 b W- one b 6",
    "8 - W- all a:4 b:7",
    "9 aabb B- end",
    "10 aab B- all b:9",
    "11 aa B- one b 10",
    "12 abab B- end",
    "13 aba B- all b:12",
    "14 ab B- one a 13",
    "15 a B- all a:11 b:14",
    "16 - B- one a 15",
    "value draw 8 16",
];

/// The answer of the checker to the lines.
fn answer_of(
    checker: &mut Checker,
    size: Size,
    lines: &[&str],
) -> Result<Result<Accepted, Refusal>, Fail> {
    let mut at = FIRST;
    for text in lines {
        let line = read_line(text.as_bytes(), size, Version::Two)
            .ok()
            .ok_or(*text)?;
        match checker.add(at, &line) {
            Ok(()) => {}
            Err(AddStop::Refused(refusal)) => return Ok(Err(refusal)),
            Err(AddStop::Memory(error)) => return Err(error.into()),
        }
        at = at.saturating_add(1);
    }
    Ok(checker.finish(at))
}

/// A reserve for the proof's sixteen lemmas suffices, one that is there already isn't made again, and a refused lemma
/// takes nothing of it.
#[test]
fn lemmas_in_reserve_find_room(rt: HostRuntime) -> Result<(), Fail> {
    let root = read_game(GAME).ok().ok_or("no game")?;
    let mut checker = Checker::new(rt.alloc(), root);
    assert!(rt; checker.lemmas() == 0);
    assert!(rt; checker.spare() == 0);
    checker.reserve(16)?;
    let room = checker.spare();
    assert!(rt; 16 <= room);
    checker.reserve(16)?;
    assert!(rt; checker.spare() == room);
    let misfit = Refusal {
        at: FIRST,
        why: Why::BadPlan(PlanFault::Misfit(1)),
    };
    let wrong = ["1 - W- plan CE:a1"];
    assert_eq!(rt; answer_of(&mut checker, root.size(), &wrong)?, Err(misfit));
    assert!(rt; checker.spare() == room);
    let accepted = Accepted {
        verdict: Verdict::Draw(8, 16),
        lemmas: 16,
    };
    assert_eq!(rt; answer_of(&mut checker, root.size(), &PROOF)?, Ok(accepted));
    assert!(rt; checker.lemmas() == 16);
    Ok(())
}
