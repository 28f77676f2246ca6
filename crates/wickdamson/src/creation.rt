// The version of the interface, the room that a book takes, the creation of a book (document 01, "What the book covers";
// refusals 18 and 3), and the question whether bytes are a sound book ("A sound book").
ghost use Rattle.std.specs.Prelude.{◌≡◌};
ghost use Rattle.rules.specs.Layout.{book_length};
ghost use Rattle.rules.specs.Calls.{create_answer, create_bytes};
ghost use Rattle.wickdamson.specs.Fields.{interface_version, sound_answer};

use book::BOOK_BYTES;
use rules::number_of;
use soundness::not_sound;

// It moves as docs/DECISIONS.md, C36 says; WICK_VERSION in the header is the same.
const VERSION: u32 = 1;

#[unsafe(no_mangle)]
pub extern "C" fn wick_version() -> u32
    ensures { result ≡ interface_version }
{
    VERSION
}

#[unsafe(no_mangle)]
pub extern "C" fn wick_book_bytes() -> usize
    ensures { result ≡ book_length }
{
    BOOK_BYTES
}

#[unsafe(no_mangle)]
pub extern "C" fn wick_create(book: &mut [u8], codes: &[u8]) -> u8
    ensures { (result ≡ create_answer book.old codes.now)
        × (book.new ≡ create_bytes book.old codes.now) }
{
    number_of(&house::create(book, codes))
}

#[unsafe(no_mangle)]
pub extern "C" fn wick_sound(book: &[u8]) -> u8
    ensures { result ≡ sound_answer book.now }
{
    if not_sound(book) {
        return 0;
    }
    1
}
