// Marks through the public calls, on books made by the public calls: the clerk's story (two accounts of one agent, a gain
// in the first, a loss in the second), and the examples V12 and V13 of the source documents. Prints for each account the
// due and the four sums, or the refusal; the expected output (stdout) has the figures of those documents.
#![tactic(auto)]

use rules::{Marks, Refusal, Trade};
use std::io;
use units::{Counted, Mils, Price};

fn print_text(rt: &impl Print, text: &[u8]) -> io::Result<()> {
    rt.write_all(text)
}

fn print_money(rt: &impl Print, m: Mils) -> io::Result<()> {
    print_text(rt, b" ")?;
    if m.is_negative() {
        print_text(rt, b"-")?;
    }
    let size = m.size();
    rt.print(size.0)
}

fn print_marks(rt: &impl Print, answer: Result<Marks, Refusal>) -> io::Result<()> {
    match answer {
        Ok(marks) => {
            print_text(rt, b" due")?;
            print_money(rt, marks.due)?;
            print_text(rt, b" sums")?;
            for sum in marks.sums {
                print_money(rt, sum)?;
            }
        }
        Err(refusal) => {
            print_text(rt, b" refused ")?;
            rt.print(u8::from(refusal) as u64)?;
        }
    }
    print_text(rt, b"\n")
}

// Securities 0 and 1 in the base, 2 and 3 in currency 1, the rest unlisted.
fn create(book: &mut [u8]) {
    let mut codes = [255u8; 32];
    codes[0] = 0;
    codes[1] = 0;
    codes[2] = 1;
    codes[3] = 1;
    _ = house::create(book, &codes);
}

fn enter(
    book: &mut [u8],
    number: u16,
    buyer: u8,
    seller: u8,
    security: u8,
    quantity: u32,
    price: u32,
) {
    let trade = Trade {
        number,
        buyer,
        seller,
        security,
        quantity: quantity,
        price: Price(price),
    };
    _ = house::enter(book, trade);
}

// The marks of an account, with closing prices of securities 0 to 3 and none in the day; currency 1 at 7.8 with a
// haircut of half a percent.
fn mark(
    rt: &impl Print,
    book: &[u8],
    account: u8,
    a: u64,
    b: u64,
    c: u64,
    d: u64,
) -> io::Result<()> {
    let intraday = [0u8; 128];
    let mut closing = [0u8; 128];
    fields::put(&mut closing, 0, 4, a);
    fields::put(&mut closing, 4, 4, b);
    fields::put(&mut closing, 8, 4, c);
    fields::put(&mut closing, 12, 4, d);
    let rates = [1_000_000u32, 7_800_000, 1_000_000, 1_000_000];
    let haircuts = [0u32, 50, 0, 0];
    print_text(rt, b"account ")?;
    rt.print(account as u64)?;
    print_marks(
        rt,
        house::marks(book, account, &intraday, &closing, &rates, &haircuts),
    )
}

// Account 1 bought what has risen, account 2 what has fallen: the gain of the first covers nothing of the second.
fn clerk(rt: &impl Print, book: &mut [u8]) -> io::Result<()> {
    print_text(rt, b"one agent, accounts 1 and 2\n")?;
    create(book);
    enter(book, 1, 1, 3, 0, 100, 10_000);
    enter(book, 2, 2, 3, 1, 100, 10_000);
    _ = house::roll(book);
    mark(rt, book, 1, 12_000, 8_500, 0, 0)?;
    mark(rt, book, 2, 12_000, 8_500, 0, 0)?;
    mark(rt, book, 3, 12_000, 8_500, 0, 0)?;
    mark(rt, book, 2, 12_000, 0, 0, 0)
}

fn v12(rt: &impl Print, book: &mut [u8]) -> io::Result<()> {
    print_text(rt, b"V12\n")?;
    create(book);
    enter(book, 1, 2, 1, 0, 100, 1_000);
    enter(book, 2, 1, 2, 1, 200, 1_100);
    enter(book, 3, 2, 1, 2, 200, 1_000);
    enter(book, 4, 1, 2, 3, 100, 1_000);
    _ = house::roll(book);
    mark(rt, book, 1, 1_100, 1_200, 1_200, 1_100)
}

// On overdue positions: two rolls and one more.
fn v13(rt: &impl Print, book: &mut [u8]) -> io::Result<()> {
    print_text(rt, b"V13\n")?;
    create(book);
    enter(book, 1, 2, 1, 0, 100, 1_000);
    enter(book, 2, 1, 2, 1, 200, 1_100);
    _ = house::roll(book);
    _ = house::roll(book);
    _ = house::roll(book);
    mark(rt, book, 1, 1_100, 1_200, 0, 0)?;
    mark(rt, book, 2, 1_100, 1_200, 0, 0)
}

fn main(rt: HostRuntime) -> io::Result<()> {
    let mut book = [0u8; 42278];
    clerk(&rt, &mut book)?;
    v12(&rt, &mut book)?;
    v13(&rt, &mut book)
}
