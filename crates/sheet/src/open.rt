// "P number account security quantity money", by number: the position table is in the order of its numbers.
ghost use Rattle.std.specs.Prelude.{◌≡◌, map, length};
ghost use Rattle.rules.specs.Sheet.{open_line};
ghost use Rattle.sheet.specs.Written.{Ready, Wrote};

use crate::one::put_one;
use rules::{Line, Position, Tally};
use sound_positions::{account_of, security_of};

// The line of one position.
fn open_line(p: Position) -> Line
    ensures { result ≡ open_line p }
{
    let account = account_of(p) as u8;
    let security = security_of(p) as u8;
    let number = p.number;
    let quantity = p.quantity;
    let money = p.money;
    Line::Open(number, account, security, quantity, money)
}

// The lines of all positions.
pub(crate) fn put_open(buffer: &mut [u8], write: bool, t: Tally, positions: &[Position]) -> Tally
    requires { Ready write (length buffer.old) t (map open_line positions.now) }
    ensures { Wrote write buffer.old t (map open_line positions.now) buffer.new result }
{
    let mut tally = t;
    for p in positions {
        tally = put_one(buffer, write, tally, open_line(*p));
    }
    tally
}
