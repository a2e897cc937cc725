//! The table, over a cache that drops what was used longest ago.
ghost use Rattle.std.specs.Prelude.{◌≡◌, ◌≤◌, [], None, true, is_ok, IfOk, OnOk, OnErr};
ghost use Rattle.std.specs.Map.{lookup};
ghost use Rattle.position_key.specs.Keys.{is_for};
ghost use Rattle.position_table.specs.declared.table.TheConstants.{MOST_ROOM};
ghost use Rattle.position_table.specs.Table.{IsTable, used, entries_kept, whole_kept};

use board_bits::{Position, Question};
use lru::LruCache;
use position_key::Key;
use std::alloc::{AllocError, Global};
use std::marker::Model;
use std::num::NonZeroUsize;

/// No table has room for more entries.
pub const MOST_ROOM: u32 = 1_000_000;

/// What was found at a position: the answer to the question, and the number of the lemma that shows it.
#[derive(Clone, Copy, Debug, PartialEq, Eq, Drop)]
pub struct Found {
    pub lemma: u32,
    pub answer: bool,
}

/// A table of what was found at positions: entries for a position and a question, the most recently used first, no two
/// for the same position and question.
#[derive(Drop)]
pub struct Table {
    cache: LruCache<Key, Found>,
    whole: bool,
}

impl Model for Table {
    ghost use Rattle.position_table.specs.Table.{Entries};

    ghost Value = { Entries };

    ghost view = { λ t. record { entries = t.cache.entries; room = t.cache.cap; whole = t.whole } };
}

impl Table {
    /// A table without entries, with room for so many: from 1 to [`MOST_ROOM`]. No memory is taken for room that isn't used.
    pub fn new(alloc: Global, room: u32) -> Result<Table, AllocError>
        requires some { 1 ≤ room }
        requires few { room ≤ MOST_ROOM }
        ensures { IfOk result (λ table. table ≡ record { entries = []; room = room; whole = true }) }
    {
        let room = NonZeroUsize::new(room as usize).unwrap();
        Ok(Table {
            cache: LruCache::sparse(alloc, room)?,
            whole: true,
        })
    }

    /// What was kept last for a position that is the same and for the same question, and None exactly where the table
    /// has no entry for them. The entry is then the most recently used.
    #[tactic(auto, unfolding(crate::specs::Table::used))]
    pub fn find(&mut self, position: &Position, question: Question) -> Option<Found>
        ensures found { result ≡ lookup (is_for position.now question) self.old.entries }
        ensures table { self.new ≡ record self.old { entries = used position.now question self.old.entries } }
    {
        let key = Key::of(position, question);
        self.cache.get(&key).copied()
    }

    /// Keeps what was found, as the most recently used entry, in place of one for the same position and question. Where a
    /// new one comes into a full table, the entry used longest ago is dropped.
    ///
    /// `AllocError` comes only for a position and question without an entry, and then the entries are as before.
    pub fn keep(
        &mut self,
        position: &Position,
        question: Question,
        found: Found,
    ) -> Result<(), AllocError>
        ensures kept { OnOk result (self.new.entries ≡ entries_kept position.now question found self.old) }
        ensures absent { OnErr result (lookup (is_for position.now question) self.old.entries ≡ None) }
        ensures same { OnErr result (self.new.entries ≡ self.old.entries) }
        ensures room { self.new.room ≡ self.old.room }
        ensures whole { self.new.whole ≡ whole_kept position.now question self.old (is_ok result) }
    {
        // its contract says that there is room for an entry
        let _len = self.cache.len();
        let key = Key::of(position, question);
        match self.cache.push(key, found) {
            Ok(None) => Ok(()),
            Ok(Some((gone, _))) => {
                let replaced = gone == Key::of(position, question);
                self.whole = self.whole && replaced;
                Ok(())
            }
            Err(failed) => {
                self.whole = false;
                Err(failed.into())
            }
        }
    }

    /// Whether, since the table was made, every call of `keep` found memory and none dropped an entry.
    pub fn whole(&self) -> bool
        ensures value { result ≡ self.now.whole }
        ensures table { IsTable self.now }
    {
        // its contract says what holds of every cache
        let _len = self.cache.len();
        self.whole
    }
}
