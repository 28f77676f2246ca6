// Calls of the house that the other programs do not make: creation refused, books of another length, the price
// question. The expected output (stdout) is written by hand from the rules.
#![tactic(auto)]

use rules::{Refusal, Trade, number_of};
use std::io;
use units::Price;

fn print_text(rt: &impl Print, text: &[u8]) -> io::Result<()> {
    rt.write_all(text)
}

fn print_number(rt: &impl Print, n: u64) -> io::Result<()> {
    print_text(rt, b" ")?;
    rt.print(n)
}

// The number of an answer: 0, or the refusal's.
fn print_answer<T: Drop>(rt: &impl Print, answer: Result<T, Refusal>) -> io::Result<()> {
    print_number(rt, number_of(&answer) as u64)
}

// ── creation ──

// "Creation: 18, 3": a book or a table of another length, then a code that is neither 0 to 3 nor 255.
fn creations(rt: &impl Print, book: &mut [u8], short: &mut [u8]) -> io::Result<()> {
    let mut codes = [255u8; 32];
    codes[0] = 0;
    let few = [0u8; 31];
    print_text(rt, b"creation")?;
    print_answer(rt, house::create(book, &few))?;
    print_answer(rt, house::create(short, &codes))?;
    codes[31] = 4;
    print_answer(rt, house::create(book, &codes))?;
    print_answer(rt, house::create(short, &codes))?;
    codes[31] = 3;
    print_answer(rt, house::create(book, &codes))?;
    print_text(rt, b"\n")
}

fn creation(rt: &impl Print) -> io::Result<()> {
    let mut book = [0u8; 42278];
    let mut short = [0u8; 42277];
    creations(rt, &mut book, &mut short)
}

// ── a book of another length ──

// "Elsewhere a book of wrong length is 1": every call on it.
fn trade_calls(rt: &impl Print, book: &mut [u8]) -> io::Result<()> {
    let trade = Trade {
        number: 1,
        buyer: 1,
        seller: 2,
        security: 0,
        quantity: 10,
        price: Price(100),
    };
    print_answer(rt, house::enter(book, trade))?;
    print_answer(rt, house::amend(book, trade))?;
    print_answer(rt, house::exclude(book, 1))
}

fn holding_calls(rt: &impl Print, book: &mut [u8]) -> io::Result<()> {
    print_answer(rt, house::deposit(book, 1, 0, 10))?;
    print_answer(rt, house::withdraw(book, 1, 0, 10))
}

fn day_calls(rt: &impl Print, book: &mut [u8]) -> io::Result<()> {
    print_answer(rt, house::roll(book))?;
    print_answer(rt, house::run(book, 0))
}

fn marks_call(rt: &impl Print, book: &[u8]) -> io::Result<()> {
    let table = [0u8; 128];
    let rates = [1_000_000u32; 4];
    let haircuts = [0u32; 4];
    print_answer(rt, house::marks(book, 1, &table, &table, &rates, &haircuts))
}

fn every_call(rt: &impl Print, book: &mut [u8]) -> io::Result<()> {
    print_text(rt, b"a book of another length")?;
    trade_calls(rt, book)?;
    holding_calls(rt, book)?;
    day_calls(rt, book)?;
    marks_call(rt, book)?;
    print_text(rt, b"\n")
}

fn other_length(rt: &impl Print) -> io::Result<()> {
    let mut book = [0u8; 42279];
    every_call(rt, &mut book)
}

// ── the price question ──

// The answer, and the entry if there is one.
fn ask<'a>(rt: &impl Print, intraday: &'a [u8], closing: &'a [u8], security: u8) -> io::Result<()> {
    let mut refusal: u8 = 0;
    let part = house::price(intraday, closing, security, &mut refusal);
    print_number(rt, refusal as u64)?;
    if part.len() == 4 {
        print_text(rt, b" at")?;
        print_number(rt, fields::get(part, 0, 4))?;
    }
    print_text(rt, b";")
}

// Security 0 has a closing price alone, security 1 both, security 2 none.
fn prices(rt: &impl Print) -> io::Result<()> {
    let mut intraday = [0u8; 128];
    let mut closing = [0u8; 128];
    fields::put(&mut intraday, 4, 4, 9_999_999);
    fields::put(&mut closing, 0, 4, 7);
    fields::put(&mut closing, 4, 4, 8);
    print_text(rt, b"prices")?;
    ask(rt, &intraday, &closing, 0)?;
    ask(rt, &intraday, &closing, 1)?;
    ask(rt, &intraday, &closing, 2)?;
    print_text(rt, b"\n")
}

// "Price question: 18, 3 (above 31 only), 5, 17": the last entry of the closing table is too high.
fn no_prices(rt: &impl Print) -> io::Result<()> {
    let short = [0u8; 127];
    let intraday = [0u8; 128];
    let mut closing = [0u8; 128];
    fields::put(&mut closing, 124, 4, 10_000_000);
    print_text(rt, b"no prices")?;
    ask(rt, &intraday, &closing, 1)?;
    ask(rt, &intraday, &closing, 32)?;
    ask(rt, &intraday, &short, 32)?;
    print_text(rt, b"\n")
}

fn main(rt: HostRuntime) -> io::Result<()> {
    creation(&rt)?;
    other_length(&rt)?;
    prices(&rt)?;
    no_prices(&rt)
}
