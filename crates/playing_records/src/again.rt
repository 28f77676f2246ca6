// A roll behind a refused one (document 01, "Refusal numbers": a refused call alters nothing). The book is as it was, also
// where other refused records or runs that move nothing stand between them, so that the same roll gets the same answer:
// it need not be made again. A file may hold 20,000 such rolls.
ghost use Rattle.std.specs.Prelude.{◌≡◌, false, cond};
ghost use Rattle.rules.specs.Sound.{not_sound};
ghost use Rattle.playing_records.specs.Answers.{number_in, figure_in, refusal_in};
ghost use Rattle.playing_records.specs.Applying.{call_in, number_by, figure_by, bytes_by};
ghost use Rattle.playing_records.specs.Again.{is_roll, is_run, leaves, Refuses};

use crate::applying::{Answer, apply};
use book::BookBytes;
use callfile_format::Read;
use rules::Refusal;

fn is_roll(found: Option<Read>) -> bool
    ensures { result ≡ is_roll found }
{
    matches!(found, Some(Read::Roll))
}

// As `apply`, on a book that is known to refuse a roll by `refused`, or of which nothing is known.
pub fn apply_again(
    book: &mut BookBytes,
    found: Option<Read>,
    place: u64,
    refused: Option<Refusal>,
) -> Answer
    requires { (not_sound book.old ≡ false) × Refuses book.old refused }
    ensures { (number_in result ≡ number_by book.old (call_in found))
        × (figure_in result ≡ figure_by book.old place (call_in found))
        × (book.new ≡ bytes_by book.old (call_in found)) }
{
    match refused {
        Some(r) if is_roll(found) => Answer::Refused(r),
        _ => apply(book, found, place),
    }
}

fn is_run(found: Option<Read>) -> bool
    ensures { result ≡ is_run found }
{
    matches!(found, Some(Read::Run(_)))
}

// Whether a record that was answered so is known to have left the book: it was refused, or is a run that moved nothing.
fn is_left(found: Option<Read>, answer: Answer) -> bool
    ensures { result ≡ leaves found (number_in answer) (figure_in answer) }
{
    match answer {
        Answer::Accepted(moved) => is_run(found) && moved.0 == 0,
        Answer::Refused(_) | Answer::Unreadable(_) => true,
    }
}

// What is known of a roll behind a record that was answered so: behind a roll its own refusal; behind any other record
// that left the book what was known before it.
pub fn refused_behind(
    found: Option<Read>,
    answer: Answer,
    refused: Option<Refusal>,
) -> Option<Refusal>
    ensures { result ≡ cond (is_roll found) (refusal_in answer) (cond (leaves found (number_in answer) (figure_in answer)) refused None) }
{
    if is_roll(found) {
        return match answer {
            Answer::Refused(r) => Some(r),
            _ => None,
        };
    }
    if is_left(found, answer) {
        return refused;
    }
    None
}
