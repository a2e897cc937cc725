//! The options of all commands, a row for each: which command has it is said where the command is read.
/// An option: its word, and the numbers that it may have.
#[derive(Clone, Copy)]
pub(crate) struct OptionRow {
    /// Its word, which begins with `--`.
    pub(crate) word: &'static str,
    /// The least number that it may have.
    pub(crate) least: u32,
    /// The greatest number that it may have.
    pub(crate) most: u32,
    /// Its number where it isn't given, if it has one then.
    pub(crate) usual: Option<u32>,
}

/// How many positions a search may enter.
pub(crate) const NODES: OptionRow = OptionRow {
    word: "--nodes",
    least: 1,
    most: 10_000_000,
    usual: Some(1_000_000),
};

/// How many sets of zones a walk looks at.
pub(crate) const REACH: OptionRow = OptionRow {
    word: "--reach",
    least: 0,
    most: 1_000_000,
    usual: Some(1_000),
};

/// How many slots a front has before each search.
pub(crate) const FRONT: OptionRow = OptionRow {
    word: "--front",
    least: 1,
    most: 1_000_000,
    usual: None,
};

/// How many settled positions a table keeps.
pub(crate) const TABLE: OptionRow = OptionRow {
    word: "--table",
    least: 1,
    most: 1_000_000,
    usual: Some(100_000),
};

/// How many of a game's last moves are marked.
pub(crate) const LAST: OptionRow = OptionRow {
    word: "--last",
    least: 0,
    most: 100,
    usual: Some(100),
};

/// The version of a proof that is written.
pub(crate) const FORMAT: OptionRow = OptionRow {
    word: "--format",
    least: 1,
    most: 2,
    usual: Some(1),
};
