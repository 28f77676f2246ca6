// What the program calls_run is written with, below the calls of the house: the fields of a command, printing, and looking at the bytes of a book.
#![tactic(auto)]

use rules::Trade;
use std::io;
use units::{Counted, Price, Shares};

fn print_text(rt: &impl Print, text: &[u8]) -> io::Result<()> {
    rt.write_all(text)
}

pub fn print_answer(rt: &impl Print, n: u8) -> io::Result<()> {
    print_text(rt, b" ")?;
    rt.print(u64::from(n))
}

pub fn print_number(rt: &impl Print, n: Shares) -> io::Result<()> {
    print_text(rt, b" ")?;
    if n.is_negative() {
        print_text(rt, b"-")?;
    }
    rt.print(n.size().0)
}

// The fields of a command stand from byte 1 on, as in a call file.
pub fn trade_of(command: &[u8; 16]) -> Trade {
    Trade {
        number: fields::get(command, 1, 2) as u16,
        buyer: command[3],
        seller: command[4],
        security: command[5],
        quantity: fields::get(command, 6, 4) as u32,
        price: Price(fields::get(command, 10, 4) as u32),
    }
}

// Bytes written over those of the book: place (2 bytes), count (1), and up to 12 of them. Books that are not sound are
// made in this way.
pub fn write(command: &[u8; 16], book: &mut [u8]) {
    let at = fields::get(command, 1, 2) as usize;
    let n = fields::get(command, 3, 1) as usize;
    if 12 < n {
        return;
    }
    if book.len() < at + n {
        return;
    }
    book[at..at + n].copy_from_slice(&command[4..4 + n]);
}

pub fn copy(from: &[u8], to: &mut [u8]) {
    if to.len() == from.len() {
        to.copy_from_slice(from);
    }
}

// The number in some bytes of the book: place (2 bytes) and count (1); 8 bytes are a signed number.
pub fn show(rt: &impl Print, command: &[u8; 16], book: &[u8]) -> io::Result<()> {
    let at = fields::get(command, 1, 2) as usize;
    let n = fields::get(command, 3, 1) as usize;
    if 8 < n {
        return Ok(());
    }
    if book.len() < at + n {
        return Ok(());
    }
    print_number(rt, Shares::from_bits(fields::get(book, at, n)))
}

fn show_record(rt: &impl Print, book: &[u8], row: usize) -> io::Result<()> {
    if 1023 < row {
        return Ok(());
    }
    let at = 36 + row * 20;
    if book.len() < at + 20 {
        return Ok(());
    }
    print_text(rt, b" |")?;
    print_number(rt, Shares::from_bits(fields::get(book, at, 4)))?;
    print_number(rt, Shares::from_bits(fields::get(book, at + 4, 8)))?;
    print_number(rt, Shares::from_bits(fields::get(book, at + 12, 8)))
}

fn show_charge(rt: &impl Print, book: &[u8], entry: usize) -> io::Result<()> {
    if 255 < entry {
        return Ok(());
    }
    let at = 36_900 + entry * 8;
    if book.len() < at + 8 {
        return Ok(());
    }
    let bits = fields::get(book, at, 8);
    if bits == 0 {
        return Ok(());
    }
    print_text(rt, b" / ")?;
    rt.print(entry as u64)?;
    print_number(rt, Shares::from_bits(bits))
}

// Every record of the position table.
fn show_records(rt: &impl Print, book: &[u8]) -> io::Result<()> {
    if book.len() < 36 {
        return Ok(());
    }
    let n = fields::get(book, 34, 2) as usize;
    for row in 0..n {
        show_record(rt, book, row)?;
    }
    Ok(())
}

// Every charge but zero, with its entry (account * 4 + currency).
fn show_charges(rt: &impl Print, book: &[u8]) -> io::Result<()> {
    for entry in 0..256usize {
        show_charge(rt, book, entry)?;
    }
    Ok(())
}

pub fn show_all(rt: &impl Print, book: &[u8]) -> io::Result<()> {
    show_records(rt, book)?;
    show_charges(rt, book)
}

// Up to 14 bytes of text: their count, then they.
pub fn say(rt: &impl Print, command: &[u8; 16]) -> io::Result<()> {
    let n = fields::get(command, 1, 1) as usize;
    if 14 < n {
        return Ok(());
    }
    print_text(rt, &command[2..2 + n])
}

pub fn say_whether_kept(rt: &impl Print, book: &[u8], copied: &[u8]) -> io::Result<()> {
    if book == copied {
        print_text(rt, b" kept")?;
        return Ok(());
    }
    print_text(rt, b" altered")
}
