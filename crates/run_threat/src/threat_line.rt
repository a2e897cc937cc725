//! The line that names a threat.
ghost use Rattle.std.specs.Prelude.{◌≡◌, ◌+◌, ◌≤◌, ◌++◌};
ghost use Rattle.arrayvec.specs.ArrayVec.{array_vec_len};
ghost use Rattle.threat_text.specs.Threats.{threat_line, pair_text};

use arrayvec::ArrayVec;
use base_rules::Baseinverse;
use plan_lines::push_group;
use run_frame::{push_square, push_text};
use threat_rules::Threat;

/// The most bytes of such a line: a group, and as many pairs as a threat may have.
pub(crate) const MOST_THREAT_TEXT: usize = 512;

/// The line of a threat: its group and its pairs, with a line feed.
pub(crate) fn threat_line(threat: &Threat) -> ArrayVec<u8, MOST_THREAT_TEXT>
    ensures { result.items ≡ threat_line threat.now.group threat.now.pairs }
{
    let mut line = ArrayVec::new();
    push_text(&mut line, b"threat ");
    push_group(&mut line, threat.group());
    let pairs = threat.pairs();
    for pair in pairs {
        push_pair(&mut line, pair);
    }
    line.push(b'\n');
    line
}

/// Puts a pair behind what is there, with a space before it.
fn push_pair(line: &mut ArrayVec<u8, MOST_THREAT_TEXT>, pair: &Baseinverse)
    requires { array_vec_len line.old + 11 ≤ MOST_THREAT_TEXT }
    ensures items { line.new.items ≡ line.old.items ++ pair_text pair.now }
    ensures bound { array_vec_len line.new ≤ array_vec_len line.old + 11 }
{
    push_text(line, b" BI:");
    push_square(line, pair.s());
    line.push(b',');
    push_square(line, pair.t());
}
