//! The words of the command line: which lists of words are a written form, and of which one.
//!
//! The definition, in `specs/Words.antt`, says what the words of a form may be, by a row for each option and one for
//! each form. [`read_words`] goes through them once, from the left and with no memory, and keeps the options with their
//! values apart from the other words (`found`). Then the command's own function (`read`) asks for its options by their
//! rows (`options`), and puts the form together.
#![tactic(auto)]

mod form;
mod found;
mod options;
mod read;

pub use form::Form;
pub use read::{USAGE, a_list_of_words_is_at_most_one_form, read_words};
