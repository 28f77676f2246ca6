// Marks of an account (document 01, "Marks"; refusals 1, 2, 18, 5, 15, 17, 16). The book is only read.
ghost use Rattle.std.specs.Prelude.{◌≡◌};
ghost use Rattle.rules.specs.Marks.{terms, marks, marks_number, marks_figures, number_of_marks, figures_of_marks};
ghost use Rattle.rules.specs.Refusals.{numbered};

use crate::UNSOUND;
use marking::marks_of;
use rules::{Marks, Refusal};
use soundness::sound_book;

pub fn marks(
    book: &[u8],
    account: u8,
    intraday: &[u8],
    closing: &[u8],
    rates: &[u32],
    haircuts: &[u32],
) -> Result<Marks, Refusal>
    ensures { (numbered result ≡ marks book.now account (terms intraday.now closing.now rates.now haircuts.now))
        × (number_of_marks (numbered result) ≡ marks_number book.now account (terms intraday.now closing.now rates.now haircuts.now))
        × (figures_of_marks (numbered result) ≡ marks_figures book.now account (terms intraday.now closing.now rates.now haircuts.now)) }
{
    let sound = sound_book(book).ok_or(UNSOUND)?;
    marks_of(sound, account, intraday, closing, rates, haircuts)
}
