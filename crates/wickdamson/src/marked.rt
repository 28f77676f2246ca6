// Marks of an account (document 01, "Marks"; refusals 1, 2, 18, 5, 15, 17, 16). The book is only read.
ghost use Rattle.std.specs.Prelude.{◌≡◌, ◌∷◌, []};
ghost use Rattle.units.specs.Units.{mils_of};
ghost use Rattle.rules.specs.Marks.{terms, marks, number_of_marks, figures_of_marks};
ghost use Rattle.wickdamson.specs.Fields.{byte_of};

use crate::wide::byte_of;
use units::Mils;

fn figure_of(money: Mils) -> i64
    ensures { result ≡ mils_of money }
{
    let number = money.0;
    number.0
}

#[unsafe(no_mangle)]
pub extern "C" fn wick_marks(
    book: &[u8],
    account: u32,
    intraday: &[u8],
    closing: &[u8],
    rates: &[u32],
    haircuts: &[u32],
    due: &mut i64,
    sum0: &mut i64,
    sum1: &mut i64,
    sum2: &mut i64,
    sum3: &mut i64,
) -> u8
    ensures { (result ≡ number_of_marks (marks book.now (byte_of account) (terms intraday.now closing.now rates.now haircuts.now)))
        × (due.new ∷ sum0.new ∷ sum1.new ∷ sum2.new ∷ sum3.new ∷ []
        ≡ figures_of_marks (marks book.now (byte_of account) (terms intraday.now closing.now rates.now haircuts.now))) }
{
    let a = byte_of(account);
    match house::marks(book, a, intraday, closing, rates, haircuts) {
        Ok(marks) => {
            *due = figure_of(marks.due);
            *sum0 = figure_of(marks.sums[0]);
            *sum1 = figure_of(marks.sums[1]);
            *sum2 = figure_of(marks.sums[2]);
            *sum3 = figure_of(marks.sums[3]);
            0
        }
        Err(refusal) => {
            *due = 0;
            *sum0 = 0;
            *sum1 = 0;
            *sum2 = 0;
            *sum3 = 0;
            refusal.into()
        }
    }
}
