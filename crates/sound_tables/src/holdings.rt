// "Holdings 0 to 10^12, each security's total too, kept account by account, 32 entries each." And "an unlisted security
// has no .. holdings". Both are asked of the totals: no holding is below zero, so that none is above its security's total.
ghost use Rattle.std.specs.Prelude.{◌≡◌, ◌<◌, leb};
ghost use Rattle.rules.specs.Bounds.{securities};
ghost use Rattle.rules.specs.Layout.{book_of};
ghost use Rattle.rules.specs.Sound.{total_held};
ghost use Rattle.sound_tables.specs.Held.{most_of, held_fits};

use book::{BookBytes, code_at, holding_at};

// What all accounts hold of a security is at most this. What is left of it goes down account by account, so that no sum
// passes 64 bits, whatever the bytes are.
#[tactic(auto, using(crate::specs::Held::held_all, crate::specs::Held::held_next, crate::specs::Held::held_none, book::specs::Views::holdings_long))]
pub fn total_fits(b: &BookBytes, security: usize, most: u64) -> bool
    requires { security < securities }
    ensures { result ≡ leb (total_held (book_of b.now).holdings security) most }
{
    let mut left = most;
    for account in 0..64 {
        let holding = holding_at(b, account * 32 + security);
        if holding > left {
            return false;
        }
        left -= holding;
    }
    true
}

// The most that the accounts may hold together of a security with this code.
#[tactic(auto, unfolding(crate::specs::Held::most_of))]
fn most_of(code: u8) -> u64
    ensures { result ≡ most_of code }
{
    if code == 255 { 0 } else { 1_000_000_000_000 }
}

pub fn holdings_fit(b: &BookBytes) -> bool
    ensures { result ≡ held_fits (book_of b.now) }
{
    (0..32).all(|s| total_fits(b, s, most_of(code_at(b, s))))
}
