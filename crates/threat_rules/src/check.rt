//! The check of a group and a list of pairs: whether they are an odd threat at a position, and why not.
ghost use Rattle.std.specs.Prelude.{◌≡◌, ◌≤◌, true, length, IfOk};
ghost use Rattle.plan_rules.specs.Squares.{is_odd};
ghost use Rattle.odd_rules.specs.Refusal.{position_refusal, pairs_refusal, threat_refusal};
ghost use Rattle.threat_rules.specs.Faults.{refusal_of};
ghost use Rattle.threat_rules.specs.declared.threat.TheConstants.{MOST_PAIRS};

use crate::answered::first_unanswered;
use crate::pairs::{first_bad, first_unpaired};
use crate::target::target;
use crate::{MOST_PAIRS, Threat, ThreatFault};
use base_rules::Baseinverse;
use board_bits::{Position, Side, Square};
use open_groups::GroupId;

impl Threat {
    /// The odd threat that the group and the pairs are at the position, where they are one. Otherwise they are
    /// refused for the first of six reasons that holds: White is to move; the game has ended; the group has no
    /// target; a member is no pair or shares a column with an earlier one, and the first such is told; a column with
    /// an odd number of men is in no pair, and the first is told; a group without a White man is not answered, and
    /// the first in group order is told. Members are counted from 1. A group or a pair of another board is refused as
    /// any other that doesn't fit. Neither a threat nor a refusal takes memory.
    pub fn check(p: &Position, group: GroupId, pairs: &[Baseinverse]) -> Result<Threat, ThreatFault>
        requires { length pairs.now ≤ MOST_PAIRS }
        ensures fault { refusal_of result ≡ threat_refusal p.now group pairs.now }
        ensures threat { IfOk result (λ threat. threat ≡ record { at = p.now; group = group; pairs = pairs.now }) }
    {
        position_accepted(p)?;
        let t = target(p, group).ok_or(ThreatFault::BadGroup)?;
        pairs_accepted(p, t, pairs)?;
        Ok(Threat::of(p, group, pairs))
    }
}

/// Whether Black is to move and the game goes on.
fn position_accepted(p: &Position) -> Result<(), ThreatFault>
    ensures { refusal_of result ≡ position_refusal p.now }
{
    match p.to_move() {
        Side::Black => match p.ended() {
            Some(_) => Err(ThreatFault::Ended),
            None => Ok(()),
        },
        Side::White => Err(ThreatFault::NotBlackToMove),
    }
}

/// Whether the members are pairs that share no column, each column with an odd number of men is in one or is the
/// target's, and each group without a White man is answered.
fn pairs_accepted(p: &Position, t: Square, pairs: &[Baseinverse]) -> Result<(), ThreatFault>
    requires few { length pairs.now ≤ MOST_PAIRS }
    requires odd { is_odd t.1 ≡ true }
    ensures { refusal_of result ≡ pairs_refusal p.now pairs.now t }
{
    if let Some(member) = first_bad(p, t, pairs) {
        return Err(ThreatFault::BadPair(member));
    }
    if let Some(column) = first_unpaired(p, t, pairs) {
        return Err(ThreatFault::Unpaired(column));
    }
    if let Some(group) = first_unanswered(p, t, pairs) {
        return Err(ThreatFault::Unanswered(group));
    }
    Ok(())
}
