//! Devices in memory and over readers and writers of std: what they pass on, and where they fail.
use io_ports::{Failed, MemSink, MemSource, Sink, StdSink, StdSource, put_all, read_all};
use std::io;
use std::test::Fail;

const TEXT: &[u8] = b"four in a row";

// A writer that takes nothing and can't hand on what it has.
#[derive(Drop)]
struct Stuck;

impl io::Write for Stuck {
    fn write(&mut self, _piece: &[u8]) -> io::Result<usize> {
        Ok(0)
    }

    fn flush(&mut self) -> io::Result<()> {
        Err(io::Error::from(io::ErrorKind::BrokenPipe))
    }
}

#[test]
fn std_readers_and_writers_pass_bytes_through(rt: HostRuntime) -> Result<(), Fail> {
    let mut source = StdSource::new(TEXT);
    let mut buf = [0; 32];
    let count = read_all(&mut source, &mut buf)?;
    assert!(rt; count <= 32);
    assert!(rt; &buf[..count] == TEXT);
    let mut written = Vec::new(rt.alloc());
    let mut sink = StdSink::new(&mut written);
    put_all(&mut sink, &buf[..count])?;
    sink.flush()?;
    assert!(rt; written.as_slice() == TEXT);
    let mut stuck = StdSink::new(Stuck);
    assert!(rt; put_all(&mut stuck, TEXT) == Err(Failed));
    assert!(rt; stuck.flush() == Err(Failed));
    Ok(())
}

// The text is read in pieces into a buffer of 8 bytes, then again: what both gave, or that they failed.
#[test]
fn a_source_in_memory_fails_at_its_numbers(rt: HostRuntime) -> Result<(), Fail> {
    let rows: [(usize, &[u32], Result<usize, Failed>, Result<usize, Failed>); 6] = [
        (8, &[], Ok(8), Ok(5)),
        (3, &[], Ok(8), Ok(5)),
        (8, &[1], Err(Failed), Ok(8)),
        (3, &[2], Err(Failed), Ok(8)),
        (8, &[2, 3], Ok(8), Err(Failed)),
        (8, &[4], Ok(8), Ok(5)),
    ];
    for (piece, fail, first, second) in rows {
        assert!(rt; piece >= 1);
        let mut source = MemSource::new(rt.alloc(), TEXT, piece, fail)?;
        let mut buf = [0; 8];
        assert!(rt;
            read_all(&mut source, &mut buf) == first,
            "{piece} {fail:?}"
        );
        assert!(rt;
            read_all(&mut source, &mut buf) == second,
            "{piece} {fail:?}"
        );
    }
    Ok(())
}

// The text is written, flushed and written again: what the sink has then, and which of the three failed.
#[test]
fn a_sink_in_memory_fails_at_its_numbers_and_without_room(rt: HostRuntime) -> Result<(), Fail> {
    let rows: [(usize, &[u32], &[u8], [bool; 3]); 6] = [
        (
            40,
            &[],
            b"four in a rowfour in a row",
            [false, false, false],
        ),
        (13, &[], b"four in a row", [false, false, true]),
        (17, &[], b"four in a rowfour", [false, false, true]),
        (0, &[], b"", [true, false, true]),
        (40, &[1, 2], b"four in a row", [true, true, false]),
        (40, &[3], b"four in a row", [false, false, true]),
    ];
    for (room, fail, written, failed) in rows {
        let mut sink = MemSink::new(rt.alloc(), room, fail)?;
        let got = [
            put_all(&mut sink, TEXT).is_err(),
            sink.flush().is_err(),
            put_all(&mut sink, TEXT).is_err(),
        ];
        assert!(rt; sink.bytes() == written, "{room} {fail:?}");
        assert!(rt; got == failed, "{room} {fail:?}");
    }
    Ok(())
}
