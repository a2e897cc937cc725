//! What stands behind a command, whatever the command is: options that are given, and other words. A word is an
//! option's where it begins with `--`. Whether the command has it, and what its value is, is asked last.
ghost use Rattle.std.specs.Prelude.{◌≡◌, [], ◌∷◌, None, map, string_bytes, option_map};
ghost use Rattle.victor_words.specs.Words.{has_only, is_among, values};
ghost use Rattle.victor_words.specs.Reading.{nothing_found, found_from, after, with_option, with_own, shown, text};
ghost use Rattle.victor_words.specs.Reading.{pair, row, asked, number, only_from, own_with};

use crate::options::OptionRow;
use arrayvec::ArrayVec;
use text_words::{number_between, split_once};

/// No command has more options.
const MOST_OPTIONS: usize = 8;

/// No command has more words of its own.
const MOST_OWN: usize = 5;

/// An option that is given, and its value, as they stand among the words.
#[derive(Clone, Copy, Default)]
pub(crate) struct Given<'a> {
    pub(crate) name: &'a [u8],
    pub(crate) value: &'a [u8],
}

/// The words behind a command.
#[derive(Drop)]
pub(crate) struct Found<'a> {
    /// The options with their values, from the left.
    pub(crate) given: ArrayVec<Given<'a>, MOST_OPTIONS>,
    /// The words that are no option's and no value, from the left.
    pub(crate) own: ArrayVec<&'a [u8], MOST_OWN>,
    /// An option whose value is to be the next word.
    waiting: Option<&'a [u8]>,
}

/// What stands among the words; None exactly where they are too many, or the option at their end has no value.
pub(crate) fn found_in(words: &[String]) -> Option<Found<'_>>
    ensures { option_map shown result ≡ found_from (map string_bytes words.now) nothing_found }
{
    Found::new().with_all(words)
}

impl<'a> Found<'a> {
    fn new() -> Found<'a>
        ensures { shown result ≡ nothing_found }
    {
        Found {
            given: ArrayVec::new(),
            own: ArrayVec::new(),
            waiting: None,
        }
    }

    /// What was found with these words behind; None exactly where they are too many, or the option at their end has no
    /// value.
    fn with_all(self, words: &'a [String]) -> Option<Found<'a>>
        ensures { option_map shown result ≡ found_from (map string_bytes words.now) (shown self.entry) }
    {
        let mut found = self;
        for word in words {
            found = found.with(word.as_bytes())?;
        }
        found.whole()
    }

    /// What was found with one word more.
    fn with(mut self, word: &'a [u8]) -> Option<Found<'a>>
        ensures { option_map shown result ≡ after (shown self.entry).waiting word.now (shown self.entry) }
    {
        if let Some(name) = self.waiting {
            return self.with_option(name, word);
        }
        let [b'-', b'-', ..] = word else {
            return self.with_own(word);
        };
        match split_once(word, b'=') {
            Some((name, value)) => self.with_option(name, value),
            None => {
                self.waiting = Some(word);
                Some(self)
            }
        }
    }

    /// What was found with an option and its value; None exactly where no command has so many options.
    fn with_option(mut self, name: &'a [u8], value: &'a [u8]) -> Option<Found<'a>>
        ensures { option_map shown result ≡ with_option name.now value.now (shown self.entry) }
    {
        if self.given.is_full() {
            return None;
        }
        self.given.push(Given { name, value });
        self.waiting = None;
        Some(self)
    }

    /// What was found with a word that is no option's; None exactly where no command has so many.
    fn with_own(mut self, word: &'a [u8]) -> Option<Found<'a>>
        ensures { option_map shown result ≡ with_own word.now (shown self.entry) }
    {
        if self.own.is_full() {
            return None;
        }
        self.own.push(word);
        self.waiting = None;
        Some(self)
    }

    /// What was found, where no option waits for its value.
    fn whole(self) -> Option<Found<'a>>
        ensures { option_map shown result ≡ found_from [] (shown self.entry) }
    {
        match self.waiting {
            Some(_) => None,
            None => Some(self),
        }
    }

    /// The words that are no option's; None exactly where an option is given that isn't one of these.
    pub(crate) fn own_with(&self, options: &[OptionRow]) -> Option<&[&'a [u8]]>
        ensures { option_map (λ own. map text own.now) result ≡ own_with (map row options.now) (shown self.now) }
    {
        if self.has_only(options) {
            Some(self.own.as_slice())
        } else {
            None
        }
    }

    /// Whether each option that is given is one of these.
    fn has_only(&self, options: &[OptionRow]) -> bool
        ensures { result ≡ has_only (map row options.now) (shown self.now).given }
    {
        let all = self.given.as_slice();
        for given in all {
            if !is_among(options, given.name) {
                return false;
            }
        }
        true
    }

    /// The number of an option that always has one: that which is given, or else the usual one. None exactly where the
    /// option is given twice, or its value is no number in its range.
    pub(crate) fn number(&self, option: &OptionRow) -> Option<u32>
        ensures { result ≡ number (row option.now) (shown self.now).given }
    {
        self.asked(option)?
    }

    /// The same of an option that has no usual number: None inside where it isn't given.
    pub(crate) fn asked(&self, option: &OptionRow) -> Option<Option<u32>>
        ensures { result ≡ asked (row option.now) (shown self.now).given }
    {
        match self.value(option.word.as_bytes())? {
            Some(value) => Some(Some(number_between(option.least, option.most, value)?)),
            None => Some(option.usual),
        }
    }

    /// The value that is given to the option of this name, if one is; None exactly where two are.
    fn value(&self, name: &[u8]) -> Option<Option<&'a [u8]>>
        ensures { option_map (option_map text) result ≡ only_from None (values name.now (shown self.now).given) }
    {
        let all = self.given.as_slice();
        let mut value = None;
        for given in all {
            value = given.value_for(name, value)?;
        }
        Some(value)
    }
}

impl<'a> Given<'a> {
    /// The value of the option of this name, where it was `found` before; None exactly where this is one more.
    fn value_for(&self, name: &[u8], found: Option<&'a [u8]>) -> Option<Option<&'a [u8]>>
        ensures { option_map (option_map text) result
            ≡ only_from (option_map text found.entry) (values name.now (pair self.now ∷ [])) }
    {
        if self.name != name {
            return Some(found);
        }
        if found.is_some() {
            return None;
        }
        Some(Some(self.value))
    }
}

/// Whether the name is that of one of the options.
fn is_among(options: &[OptionRow], name: &[u8]) -> bool
    ensures { result ≡ is_among (map row options.now) name.now }
{
    for option in options {
        if name == option.word.as_bytes() {
            return true;
        }
    }
    false
}
