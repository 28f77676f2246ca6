// "Today's net for an account and security", of an account in all securities: one walk over the list adds each of its trades
// to the net of the trade's security.
ghost use Rattle.std.specs.Prelude.{◌≡◌, true, [], ◌+◌, ◌≤◌, length};
ghost use Rattle.rules.specs.Words.{all};
ghost use Rattle.rules.specs.Bounds.{last_day, most_trades};
ghost use Rattle.rules.specs.Book.{number_of};
ghost use Rattle.laws.specs.NetLaws.{in_limits};
ghost use Rattle.laws.specs.Listed.{in_securities};
ghost use Rattle.netting_account.specs.AccountNets.{Nets};

use crate::one_trade::{has_part, with_trade};
use rules::{Position, Trade};
use std::array;
use units::{Mils, Shares, Whole};

// Position number = due day * 2,048 + account * 32 + security.
#[tactic(auto, unfolding(rules::specs::Book::number_of))]
fn number_of(due: u32, account: u8, security: u8) -> u32
    requires { due ≤ last_day + 2 }
    ensures { result ≡ number_of due account security }
{
    let a = account as u32;
    let s = security as u32;
    due * 2_048 + a * 32 + s
}

// An account's nets over no trades, as positions of a due day.
fn no_nets(due: u32, account: u8) -> [Position; 32]
    requires { due ≤ last_day + 2 }
    ensures { Nets due [] account result }
{
    array::from_fn(|s| Position {
        number: number_of(due, account, s as u8),
        quantity: Shares(Whole(0)),
        money: Mils(Whole(0)),
    })
}

// An account's nets, in one walk.
pub fn account_nets(trades: &[Trade], due: u32, account: u8) -> [Position; 32]
    requires { (length trades.now ≤ most_trades) × (due ≤ last_day + 2) × (all in_securities trades.now ≡ true) × (all in_limits trades.now ≡ true) }
    ensures { Nets due trades.now account result }
{
    let mut nets = no_nets(due, account);
    for t in trades {
        if has_part(*t, account) {
            let s = t.security as usize;
            nets[s] = with_trade(nets[s], *t, account);
        }
    }
    nets
}
