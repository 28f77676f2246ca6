// Today's nets (document 01, "From trades to positions"): the accounts that the list names, as buyers or sellers. No other
// account has a net, so that the list is walked only for these.
ghost use Rattle.std.specs.Prelude.{◌≡◌, true};
ghost use Rattle.rules.specs.Words.{all};
ghost use Rattle.laws.specs.NetLaws.{in_accounts};
ghost use Rattle.netting_account.specs.Named.{Named};

use rules::Trade;

// A flag for each account: where it is down no trade names the account. A flag that is up promises nothing: it costs a
// walk and no more. (An excluded trade names account 0.)
pub fn named_accounts(trades: &[Trade]) -> [bool; 64]
    requires { all in_accounts trades.now ≡ true }
    ensures { Named result trades.now }
{
    let mut named = [false; 64];
    for t in trades {
        named[t.buyer as usize] = true;
        named[t.seller as usize] = true;
    }
    named
}
