// "Today's nets become positions due in two days": the position table with the nets behind the open positions.
ghost use Rattle.std.specs.Prelude.{◌≡◌, true, MatchResult};
ghost use Rattle.rules.specs.Layout.{book_of};
ghost use Rattle.rules.specs.Refusals.{number_of};
ghost use Rattle.rules.specs.Sound.{sound, is_position};
ghost use Rattle.netting.specs.Filling.{WithNets, PastRoom};

use crate::Netted;
use book::{BookBytes, day_at, entries_at, positions_of, records_at, trades_of};
use netting_account::{account_nets, named_accounts};
use rules::{Position, Refusal};
use units::Counted;

// "A net of 0 shares with money is a position; 0 and 0 is none."
#[tactic(auto, unfolding(rules::specs::Sound::is_position, rules::specs::Book::is_zero))]
fn is_position(p: Position) -> bool
    ensures { result ≡ is_position p }
{
    !p.quantity.is_zero() || !p.money.is_zero()
}

// By account, then security: by ascending number, as the records stand. One walk of the list finds
// the accounts that it names, and one for each of them gives its nets. The first net for which there is no row ends it:
// the roll is refused by 10.
pub fn with_nets(b: &BookBytes) -> Result<Netted, Refusal>
    requires { sound (book_of b.now) ≡ true }
    ensures { MatchResult result (λ t. WithNets (book_of b.now) t.count t.positions) (λ r. PastRoom (book_of b.now) (number_of r)) }
{
    let trades = trades_of(b);
    let n = entries_at(b) as usize;
    let list = &trades[..n];
    let due = day_at(b) as u32 + 2;
    let mut positions = positions_of(b);
    let mut count = records_at(b);
    let named = named_accounts(list);
    for account in 0..64u8 {
        if !named[account as usize] {
            continue;
        }
        for net in account_nets(list, due, account) {
            if !is_position(net) {
                continue;
            }
            if count == 1024 {
                return Err(Refusal::TableFull);
            }
            positions[count as usize] = net;
            count += 1;
        }
    }
    Ok(Netted { count, positions })
}
