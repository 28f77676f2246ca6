// "Due: unfavourable total less favourable total, or 0. The answer has the due and four signed sums." 16: either
// converted total passes 9*10^18.
ghost use Rattle.std.specs.Prelude.{◌≡◌, true, ◌-◌, ◌≤◌};
ghost use Rattle.exact.specs.MulDiv.{limit};
ghost use Rattle.rules.specs.Layout.{book_of};
ghost use Rattle.rules.specs.Sound.{sound};
ghost use Rattle.rules.specs.Marks.{terms};
ghost use Rattle.marking.specs.SoundMarks.{marks_sound};
ghost use Rattle.marking_sums.specs.Converting.{Rates};
ghost use Rattle.rules.specs.Refusals.{numbered};
ghost use Rattle.marking.specs.Answering.{due_with, answer_of};

use crate::terms::terms_fit;
use crate::unpriced::has_unpriced;
use book::BookBytes;
use marking_sums::{PerCurrency, Side, converted_total, sums_of};
use rules::{Marks, Refusal};
use units::{Amount, Counted, Mils};

// What `down` has more than `up`, or 0.
fn excess(up: Amount, down: Amount) -> Amount
    ensures { result.0 ≡ down.0 - up.0 }
{
    Amount(down.0.saturating_sub(up.0))
}

fn due_of(t: PerCurrency, up: Amount, down: Amount) -> Marks
    requires { down.0 ≤ limit }
    ensures { result ≡ due_with t.sums up.0 down.0 }
{
    let sums = t.sums;
    Marks {
        due: Mils::of(false, excess(up, down)),
        sums,
    }
}

// The totals are asked, not the due: a due can be within the limit though a total is not.
fn answer_of(t: PerCurrency, rates: &[u32; 4], haircuts: &[u32; 4]) -> Result<Marks, Refusal>
    requires { Rates rates.now haircuts.now }
    ensures { numbered result ≡ answer_of t.sums rates.now haircuts.now }
{
    let past = Refusal::TotalTooLarge;
    let up = converted_total(Side::Favourable, t, rates, haircuts).ok_or(past)?;
    let down = converted_total(Side::Unfavourable, t, rates, haircuts).ok_or(past)?;
    Ok(due_of(t, Amount(up), Amount(down)))
}

// The answer of marks for bytes that are a sound book. The book is only read, and never copied.
pub fn marks_of(
    book: &BookBytes,
    account: u8,
    intraday: &[u8],
    closing: &[u8],
    rates: &[u32],
    haircuts: &[u32],
) -> Result<Marks, Refusal>
    requires { sound (book_of book.now) ≡ true }
    ensures { numbered result ≡ marks_sound (book_of book.now) account (terms intraday.now closing.now rates.now haircuts.now) }
{
    let terms = terms_fit(account, intraday, closing, rates, haircuts)?;
    let own = account as usize;
    if has_unpriced(book, own, terms.tables) {
        return Err(Refusal::NoPrice);
    }
    let sums = sums_of(book, own, terms.tables);
    answer_of(sums, terms.rates, terms.haircuts)
}
