// ".. unused room is zero."
ghost use Rattle.std.specs.Prelude.{◌≡◌, ◌≤◌, drop};
ghost use Rattle.rules.specs.Words.{all};
ghost use Rattle.rules.specs.Bounds.{most_records};
ghost use Rattle.rules.specs.Layout.{book_of};
ghost use Rattle.rules.specs.Sound.{is_blank};
ghost use Rattle.sound_positions.specs.Each.{room_fits};

use book::{BookBytes, position_at, records_at};
use rules::Position;
use units::Counted;

// (Field by field, as the definition is: a comparison with a row of zeros would need an equality of each type to say the same.)
#[tactic(auto, unfolding(rules::specs::Sound::is_blank, rules::specs::Book::is_zero))]
fn is_blank(p: Position) -> bool
    ensures { result ≡ is_blank p }
{
    p.number == 0 && p.quantity.is_zero() && p.money.is_zero()
}

// All the room behind the records, to the end of the table.
fn unused_blank(b: &BookBytes) -> bool
    requires { (book_of b.now).records ≤ most_records }
    ensures { result ≡ all is_blank (drop (book_of b.now).records (book_of b.now).positions) }
{
    let n = records_at(b) as usize;
    (n..1024).all(|row| is_blank(position_at(b, row)))
}

pub fn room_fits(b: &BookBytes) -> bool
    ensures { result ≡ room_fits (book_of b.now) }
{
    records_at(b) <= 1024 && unused_blank(b)
}
