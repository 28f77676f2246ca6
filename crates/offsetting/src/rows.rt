// "The smaller remaining quantity is taken from both, each part's money is charged": one meeting, written where the two rows
// and the charge stand.
ghost use Rattle.std.specs.Prelude.{◌≡◌};
ghost use Rattle.rules.specs.Layout.{book_of};
ghost use Rattle.offsetting.specs.Rows.{RowsAsk, met_in};

use book::{BookBytes, charge_at, position_at, put_charge, put_position};
use offsetting_meetings::meeting;

// Row i, newly due, meets row j, an older one; `at` is where the walk charges row i's account.
pub fn meet(b: &mut BookBytes, i: usize, j: usize, at: usize)
    requires { RowsAsk (book_of b.old) i j at }
    ensures { book_of b.new ≡ met_in (book_of b.old) i j at }
{
    let met = meeting(charge_at(b, at), position_at(b, i), position_at(b, j));
    put_position(b, j, met.older);
    put_position(b, i, met.newly);
    put_charge(b, at, met.charge);
}
