// "C account currency charge", by account then currency, zero charges omitted: charges stand at account * 4 + currency.
ghost use Rattle.std.specs.Prelude.{length};
ghost use Rattle.sheet.specs.Written.{Ready, Wrote};
ghost use Rattle.sheet.specs.BookLines.{charge_entry, entry_lines};

use crate::one::put_one;
use rules::{Line, Tally};
use units::{Counted, Mils};

// The line of one charge, if it is not zero.
fn put_charge(
    buffer: &mut [u8],
    write: bool,
    t: Tally,
    account: u8,
    currency: u8,
    charge: Mils,
) -> Tally
    requires { Ready write (length buffer.old) t (charge_entry account currency charge) }
    ensures { Wrote write buffer.old t (charge_entry account currency charge) buffer.new result }
{
    let size = charge.size();
    if size.0 == 0 {
        return t;
    }
    put_one(buffer, write, t, Line::Charge(account, currency, charge))
}

// The lines of all charges, from one place to the next.
pub(crate) fn put_charges(buffer: &mut [u8], write: bool, t: Tally, charges: &[Mils; 256]) -> Tally
    requires { Ready write (length buffer.old) t (entry_lines charges.now) }
    ensures { Wrote write buffer.old t (entry_lines charges.now) buffer.new result }
{
    let mut tally = t;
    for i in 0..256 {
        let (account, currency) = ((i / 4) as u8, (i % 4) as u8);
        tally = put_charge(buffer, write, tally, account, currency, charges[i]);
    }
    tally
}
