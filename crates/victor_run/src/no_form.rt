//! The end of a run whose words are no form of a command.
use run_frame::{Ending, LineText, push_text};
use victor_words::USAGE;

/// The words are no written form: status 2.
pub(crate) struct NoForm;

impl Ending for NoForm {
    ghost use Rattle.proof_text.specs.Spelling.{as_line};
    ghost use Rattle.victor_words.specs.Words.{usage};

    ghost status_of = { λ end. 2 };

    ghost text_of = { λ end. as_line usage };

    fn status(&self) -> u8 {
        2
    }

    fn text(&self) -> LineText {
        let mut text = LineText::new();
        push_text(&mut text, USAGE);
        text
    }
}
