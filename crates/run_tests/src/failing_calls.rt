//! Each call of a device failed in turn, up to the first run that has no call of that number.
use crate::devices::{
    ANNOTATE, CHECK, DUEL, DUEL_ANSWERS, MISTAKE, MISTAKE_MARKS, PLAY, PROVE_BY_SEARCH, THREAT,
    TRIM, TWO_SQUARES_LEFT, TWO_SQUARES_PROOF, UPGRADE, UPGRADED, ZUGZWANG, ZUGZWANG_ANSWERS,
};
use crate::running::{Devices, Ran, SOUND, run_over};
use std::alloc::Global;
use std::test::Fail;

/// No run here makes more calls of one device.
const MOST_CALLS: u32 = 200;

/// The words of a run, its input, and what it writes where no call fails.
type Whole = (&'static [&'static str], &'static str, &'static str);

const WHOLE: [Whole; 7] = [
    (PROVE_BY_SEARCH, TWO_SQUARES_LEFT, TWO_SQUARES_PROOF),
    (CHECK, TWO_SQUARES_PROOF, "accepted draw 6\n"),
    (UPGRADE, TWO_SQUARES_PROOF, UPGRADED),
    (PLAY, DUEL, DUEL_ANSWERS),
    (THREAT, ZUGZWANG, ZUGZWANG_ANSWERS),
    (TRIM, TWO_SQUARES_PROOF, TWO_SQUARES_PROOF),
    (ANNOTATE, MISTAKE, MISTAKE_MARKS),
];

/// A run over devices of which a call fails; None where it doesn't make that call, so that it ends well.
fn failed_run(
    alloc: Global,
    words: &[&str],
    input: &str,
    devices: Devices<'_>,
) -> Result<Option<Ran>, Fail> {
    let got = run_over(alloc, words, input.as_bytes(), devices)?;
    if got.status == 0 {
        return Ok(None);
    }
    Ok(Some(got))
}

#[test]
fn each_failing_call_of_the_sink_leaves_a_prefix(rt: HostRuntime) -> Result<(), Fail> {
    for (words, input, whole) in WHOLE {
        let mut written = 0;
        let mut ended = false;
        for call in 1..MOST_CALLS {
            let devices = Devices {
                out_fails: &[call],
                ..SOUND
            };
            let Some(got) = failed_run(rt.alloc(), words, input, devices)? else {
                ended = true;
                break;
            };
            assert!(rt; got.status == 7, "{words:?} {call}");
            assert!(rt;
                whole.as_bytes().starts_with(got.out.as_slice()),
                "{words:?} {call}"
            );
            assert!(rt;
                got.err.as_slice() == b"write fault\n".as_slice(),
                "{words:?} {call}"
            );
            written = got.out.len();
        }
        // The last call is the flush behind the whole text.
        assert!(rt; ended && written == whole.len(), "{words:?}");
    }
    Ok(())
}

#[test]
fn each_failing_call_of_the_source_leaves_whole_lines(rt: HostRuntime) -> Result<(), Fail> {
    for (words, input, whole) in WHOLE {
        let mut ended = false;
        for call in 1..MOST_CALLS {
            let devices = Devices {
                piece: 1,
                source_fails: &[call],
                ..SOUND
            };
            let Some(got) = failed_run(rt.alloc(), words, input, devices)? else {
                ended = true;
                break;
            };
            let answered = got.out.as_slice();
            let by_line = words == UPGRADE || words == PLAY || words == THREAT;
            let lines = answered.is_empty() || (by_line && answered.ends_with(b"\n"));
            assert!(rt; got.status == 6, "{words:?} {call}");
            assert!(rt;
                lines && whole.as_bytes().starts_with(answered),
                "{words:?} {call}"
            );
            assert!(rt;
                got.err.as_slice() == b"read fault\n".as_slice(),
                "{words:?} {call}"
            );
        }
        assert!(rt; ended, "{words:?}");
    }
    Ok(())
}

#[test]
fn a_report_that_fails_leaves_the_status(rt: HostRuntime) -> Result<(), Fail> {
    let devices = Devices {
        err_fails: &[1, 2, 3, 4],
        ..SOUND
    };
    let got = run_over(
        rt.alloc(),
        &["prove"],
        b"board 4 4\nmoves abababab\n",
        devices,
    )?;
    assert!(rt; got.status == 3);
    assert!(rt; got.out.is_empty() && got.err.is_empty());
    Ok(())
}
