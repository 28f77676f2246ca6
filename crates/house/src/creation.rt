// Creation of a book (document 01, "What the book covers"; refusals 18 and 3).
ghost use Rattle.std.specs.Prelude.{◌≡◌};
ghost use Rattle.rules.specs.Book.{empty_book};
ghost use Rattle.rules.specs.Calls.{create_answer, create_bytes};
ghost use Rattle.rules.specs.Refusals.{answered};

use book_whole::store;
use rules::{Book, Position, Refusal, Trade};
use sound_tables::codes_fit;
use units::{Mils, Price, Shares, Whole};

// Day 0 and nothing but the currency table.
#[tactic(auto, unfolding(rules::specs::Book::empty_book))]
fn empty_book(codes: [u8; 32]) -> Book
    ensures { result ≡ empty_book codes }
{
    let nothing = Mils(Whole(0));
    let no_position = Position {
        number: 0,
        quantity: Shares(Whole(0)),
        money: nothing,
    };
    let no_trade = Trade {
        number: 0,
        buyer: 0,
        seller: 0,
        security: 0,
        quantity: 0,
        price: Price(0),
    };
    Book {
        day: 0,
        currency: codes,
        records: 0,
        positions: [no_position; 1024],
        holdings: [0; 2048],
        charges: [nothing; 256],
        entries: 0,
        trades: [no_trade; 256],
    }
}

// It looks at no old byte: a new history begins, whatever stood there.
pub fn create(book: &mut [u8], codes: &[u8]) -> Result<(), Refusal>
    ensures { (answered result ≡ create_answer book.old codes.now)
        × (book.new ≡ create_bytes book.old codes.now) }
{
    let room = book.as_mut_array().ok_or(Refusal::WrongLength)?;
    let table = *codes.as_array().ok_or(Refusal::WrongLength)?;
    if !codes_fit(table) {
        return Err(Refusal::NoSecurity);
    }
    store(&empty_book(table), room);
    Ok(())
}
