// "For each account and currency, the size of the day's charge plus the sizes of open money is at most 2,621,440,000,000,000,000."
ghost use Rattle.std.specs.Prelude.{◌≡◌, ℕ, ◌+◌, ◌<◌, ◌≤◌, ◌^◌, leb, nat_abs};
ghost use Rattle.units.specs.Units.{mils_of};
ghost use Rattle.rules.specs.Bounds.{currencies, most_at_stake};
ghost use Rattle.rules.specs.Book.{security_of, currency_of};
ghost use Rattle.rules.specs.Layout.{book_of};
ghost use Rattle.rules.specs.Sound.{money_fits};
ghost use Rattle.sound_tables.specs.Placed.{all_from, sum_at};
ghost use Rattle.sound_tables.specs.Stakes.{MoneyAsks, place_of, size_of, Sums, stake_fits};

use book::{BookBytes, charge_at, code_at, position_at, records_at};
use rules::Position;
use sound_positions::{account_of, security_of};
use units::{Amount, Counted, Mils};

// Where the money of a position counts: account * 4 + currency.
#[tactic(auto, unfolding(rules::specs::Book::currency_of))]
fn place_of(b: &BookBytes, p: Position) -> usize
    requires { currency_of (book_of b.now) (security_of p) < currencies }
    ensures { (result ≡ place_of (book_of b.now) p) × (result < 256) }
{
    let a = account_of(p);
    let s = security_of(p);
    let c = code_at(b, s) as usize;
    a * 4 + c
}

// The size of a position's money, added to a sum.
fn with_money(sum: Amount, p: Position) -> Amount
    requires { sum.0 + size_of p < 2 ^ 64 }
    ensures { result.0 ≡ sum.0 + size_of p }
{
    Amount(sum.0 + p.money.size().0)
}

// The sizes of open money of each account and currency, in one pass over the records.
fn open_money(b: &BookBytes) -> [Amount; 256]
    requires { MoneyAsks (book_of b.now) }
    ensures { Sums (book_of b.now) result × ((x : ℕ) → x < 256 → sum_at result x ≤ most_at_stake) }
{
    let n = records_at(b) as usize;
    let none = Amount(0);
    let mut sums = [none; 256];
    for i in 0..n {
        let p = position_at(b, i);
        let at = place_of(b, p);
        sums[at] = with_money(sums[at], p);
    }
    sums
}

fn stake_fits(charge: Mils, money: Amount) -> bool
    requires { money.0 ≤ most_at_stake }
    ensures { result ≡ leb (nat_abs (mils_of charge) + money.0) most_at_stake }
{
    charge.size().0 <= 2_621_440_000_000_000_000 - money.0
}

fn charges_fit(b: &BookBytes, sums: [Amount; 256]) -> bool
    requires { (x : ℕ) → x < 256 → sum_at sums x ≤ most_at_stake }
    ensures { result ≡ all_from (stake_fits sums) 0 (book_of b.now).charges }
{
    (0..256).all(|i| stake_fits(charge_at(b, i), sums[i]))
}

#[tactic(auto, using(crate::specs::Stakes::stakes_fit, book::specs::Views::charges_long))]
pub fn money_fits(b: &BookBytes) -> bool
    requires { MoneyAsks (book_of b.now) }
    ensures { result ≡ money_fits (book_of b.now) }
{
    let sums = open_money(b);
    charges_fit(b, sums)
}
