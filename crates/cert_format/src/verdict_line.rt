//! The lines of verdicts, and the words of claims.
ghost use Rattle.std.specs.Prelude.{◌≡◌, length};
ghost use Rattle.proof_text.specs.Spelling.{claim_word, verdict_line};

use proof_text::{Claim, Verdict};
use text_words::{LineText, push_number, push_text};

/// The line of a verdict, with its line feed.
pub(crate) fn verdict_line(verdict: Verdict) -> LineText
    ensures { result.items ≡ verdict_line verdict }
{
    let mut line = LineText::new();
    match verdict {
        Verdict::Win(lemma) => {
            push_text(&mut line, b"value win ");
            push_number(&mut line, lemma);
        }
        Verdict::Loss(lemma) => {
            push_text(&mut line, b"value loss ");
            push_number(&mut line, lemma);
        }
        Verdict::Draw(white, black) => {
            push_text(&mut line, b"value draw ");
            push_number(&mut line, white);
            line.push(b' ');
            push_number(&mut line, black);
        }
        Verdict::Unknown => push_text(&mut line, b"value unknown"),
    }
    line.push(b'\n');
    line
}

pub(crate) fn claim_word(claim: Claim) -> &'static [u8]
    ensures word { result.now ≡ claim_word claim }
    ensures short { length result.now ≡ 2 }
{
    match claim {
        Claim::WhiteWins => b"W+",
        Claim::WhiteFails => b"W-",
        Claim::BlackWins => b"B+",
        Claim::BlackFails => b"B-",
    }
}
