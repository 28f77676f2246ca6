// The day roll and the settlement run (document 01, "From trades to positions", "Settlement run"; refusals 1, 10, 14 and
// 1, 3, 13).
ghost use Rattle.std.specs.Prelude.{◌≡◌, pos};
ghost use Rattle.rules.specs.Calls.{roll, run, answer_bytes, after_bytes, run_answer, number_of_run, figure_of_run};
ghost use Rattle.wickdamson.specs.Fields.{byte_of};

use crate::wide::byte_of;
use rules::number_of;
use units::Counted;

#[unsafe(no_mangle)]
pub extern "C" fn wick_roll(book: &mut [u8]) -> u8
    ensures { (result ≡ answer_bytes book.old roll)
        × (book.new ≡ after_bytes book.old roll) }
{
    number_of(&house::roll(book))
}

#[unsafe(no_mangle)]
pub extern "C" fn wick_run(book: &mut [u8], security: u32, moved: &mut u64) -> u8
    ensures { (result ≡ number_of_run (run_answer book.old (byte_of security)))
        × (pos moved.new ≡ figure_of_run (run_answer book.old (byte_of security)))
        × (book.new ≡ after_bytes book.old (run (byte_of security))) }
{
    let s = byte_of(security);
    match house::run(book, s) {
        Ok(shares) => {
            *moved = shares.size().0;
            0
        }
        Err(refusal) => {
            *moved = 0;
            refusal.into()
        }
    }
}
