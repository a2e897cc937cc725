//! Why a group and a list of pairs are no odd threat.
use board_bits::Column;
use open_groups::GroupId;

/// The first reason for which a group and a list of pairs are no odd threat at a position. Members are counted from 1.
/// The order of the reasons is this project's own choice.
#[derive(Clone, Copy, Debug, PartialEq, Eq)]
pub enum ThreatFault {
    /// White is to move.
    NotBlackToMove,
    /// The game has ended.
    Ended,
    /// The group isn't one of the board, or it doesn't lack exactly one square on an odd row above an odd number of
    /// men, with White's men on the others.
    BadGroup,
    /// The first member that doesn't fit, stands in the target's column or in one with an even number of men, or shares
    /// a column with an earlier member.
    BadPair(u32),
    /// The first column with an odd number of men, other than the target's, that is in no member.
    Unpaired(Column),
    /// The first group, in group order, without a White man that has no safe square and not both squares of a member.
    Unanswered(GroupId),
}
