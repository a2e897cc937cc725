//! Why a list of instances is no plan.
use group_rules::{GroupId, Square};

/// The first reason for which a list of instances is no plan at a position. Members are counted from 1. The order of the
/// reasons is this project's own choice.
#[derive(Clone, Copy, Debug, PartialEq, Eq)]
pub enum PlanFault {
    /// Black is to move.
    NotWhiteToMove,
    /// The game has ended.
    Ended,
    /// The first member that doesn't fit.
    Misfit(u32),
    /// The least two members that may not stand together: the least first one, and then the least second one.
    Clash(u32, u32),
    /// The first empty square, in square order, in no zone.
    Uncovered(Square),
    /// The first member without support.
    Unsupported(u32),
    /// The first group, in group order, without a Black man that no member bars.
    Unanswered(GroupId),
}
