// The roll before its offsetting, where the bytes stand, in document 01's order: "charges are set to zero; today's nets become
// positions due in two days; the list is emptied; the day goes up by one".
ghost use Rattle.std.specs.Prelude.{◌≡◌, true};
ghost use Rattle.rules.specs.Layout.{book_of};
ghost use Rattle.rules.specs.Sound.{sound};
ghost use Rattle.laws.specs.Rolling.{rolling};
ghost use Rattle.book.specs.Replacing.{with_rows};
ghost use Rattle.netting.specs.Filling.{WithNets};
ghost use Rattle.netting.specs.Before.{Extends};

use crate::Netted;
use book::{
    BookBytes, clear_charges, clear_list, day_at, put_day, put_position, put_records, records_at,
};

// The nets are put into the rows behind the open positions; in all other rows the table handed over is the book's.
fn put_nets(b: &mut BookBytes, t: Netted)
    requires { Extends (book_of b.old).records (book_of b.old).positions t.count t.positions }
    ensures { book_of b.new ≡ with_rows (book_of b.old) t.count t.positions }
{
    for i in records_at(b) as usize..t.count as usize {
        put_position(b, i, t.positions[i]);
    }
    put_records(b, t.count);
}

// `t` is what `with_nets` makes of the book, and has room for all nets.
pub fn before_offset(b: &mut BookBytes, t: Netted)
    requires { (sound (book_of b.old) ≡ true) × WithNets (book_of b.old) t.count t.positions }
    ensures { book_of b.new ≡ rolling (book_of b.old) }
{
    let day = day_at(b);
    clear_charges(b);
    put_nets(b, t);
    clear_list(b);
    put_day(b, day + 1);
}
