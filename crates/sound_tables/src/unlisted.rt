// "An unlisted security has no records .." (Its holdings are tested with the totals of the holdings.)
ghost use Rattle.std.specs.Prelude.{◌≡◌, not, ◌≤◌};
ghost use Rattle.rules.specs.Words.{all};
ghost use Rattle.rules.specs.Bounds.{most_records};
ghost use Rattle.rules.specs.Book.{security_of, open_of, unlisted};
ghost use Rattle.rules.specs.Layout.{book_of};

use book::{BookBytes, code_at, position_at, records_at};
use rules::Position;
use sound_positions::security_of;

#[tactic(auto, unfolding(rules::specs::Book::unlisted, rules::specs::Book::currency_of))]
fn is_listed(b: &BookBytes, p: Position) -> bool
    ensures { result ≡ not (unlisted (book_of b.now) (security_of p)) }
{
    code_at(b, security_of(p)) != 255
}

pub fn records_listed(b: &BookBytes) -> bool
    requires { (book_of b.now).records ≤ most_records }
    ensures { result ≡ all (λ p. not (unlisted (book_of b.now) (security_of p))) (open_of (book_of b.now)) }
{
    let n = records_at(b) as usize;
    (0..n).all(|i| is_listed(b, position_at(b, i)))
}
