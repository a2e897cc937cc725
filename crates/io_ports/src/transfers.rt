//! The loops over a source or a sink that every command shares: a whole text out, and all of a short input in. What an
//! error leaves is said too, since a caller has to say how much of its output stands.
ghost use Rattle.std.specs.Prelude.{◌≡◌, [], is_ok, IsOk, IfOk, ◌≤◌, length};
ghost use Rattle.device_rules.specs.Devices.{HasCause, AppendsPrefix};
ghost use Rattle.io_ports.specs.Transfers.{ReadsAll};

use crate::{Failed, Sink, Source};

/// Writes the whole piece. On `Failed`, which comes only where the count of faults rose, a prefix of the piece was
/// written. An empty piece makes no call.
pub fn put_all<O: Sink>(out: &mut O, piece: &[u8]) -> Result<(), Failed>
    ensures bytes { AppendsPrefix (is_ok result) (O.written out.old) (O.written out.new) piece.now }
    ensures cause { HasCause (O.faults out.old) (O.faults out.new) result }
    ensures none { piece.now ≡ [] → IsOk result × (out.new ≡ out.old) }
{
    let mut done = 0;
    while done < piece.len() {
        done += out.write(&piece[done..])?;
    }
    Ok(())
}

/// Reads until the buffer is full or the input has ended, and answers how many bytes were read. On `Failed`, which
/// comes only where the count of faults rose, the bytes read so far are gone from the source.
pub fn read_all<S: Source>(source: &mut S, buf: &mut [u8]) -> Result<usize, Failed>
    ensures within { IfOk result (λ n. n ≤ length buf.new) }
    ensures bytes { ReadsAll (S.left source.old) (S.left source.new) result buf.new }
    ensures cause { HasCause (S.faults source.old) (S.faults source.new) result }
{
    let mut filled = 0;
    while filled < buf.len() {
        let count = source.read(&mut buf[filled..])?;
        if count == 0 {
            break;
        }
        filled += count;
    }
    Ok(filled)
}
