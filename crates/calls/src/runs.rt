// The settlement run (document 01, "Settlement run"; refusals 3 and 13), where the bytes stand. The answer is the shares
// moved, 0 included: where nothing can be given, no byte is written.
ghost use Rattle.std.specs.Prelude.{◌≡◌, false};
ghost use Rattle.rules.specs.Refusals.{numbered};
ghost use Rattle.rules.specs.Sound.{not_sound};
ghost use Rattle.rules.specs.Calls.{run, run_answer, after_bytes};

use book::{BookBytes, codes_of};
use rules::Refusal;
use settling::{may_run, with_run};
use settling_counts::deliverable_of;
use sound_tables::bad_security;
use units::{Counted, Quantity, Shares};

pub fn run(book: &mut BookBytes, security: u8) -> Result<Shares, Refusal>
    requires { not_sound book.old ≡ false }
    ensures { (numbered result ≡ run_answer book.old security) × (book.new ≡ after_bytes book.old (run security)) }
{
    let codes = codes_of(book);
    if bad_security(codes, security) {
        return Err(Refusal::NoSecurity);
    }
    let gives = deliverable_of(book, security);
    if gives.0 == 0 {
        return Ok(Shares::of(false, Quantity(0)));
    }
    may_run(book, security, gives)?;
    Ok(with_run(book, security, gives))
}
