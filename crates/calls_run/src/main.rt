// Plays a script of commands from standard input on one book, through the public calls of `house`, and prints every
// answer. The script and the expected output (stdout) are written by tests/calls.py, which says what each line shows.
#![tactic(auto)]

use rules::{Refusal, number_of};
use std::io;
use std::io::{ErrorKind, Read};
use units::Shares;

// Securities 0 to 3 in the currencies 0 to 3, the rest unlisted.
fn create(book: &mut [u8]) -> Result<(), Refusal> {
    let mut codes = [255u8; 32];
    codes[0] = 0;
    codes[1] = 1;
    codes[2] = 2;
    codes[3] = 3;
    house::create(book, &codes)
}

// The shares moved stand behind the answer of a run.
fn print_run(rt: &impl Print, answer: Result<Shares, Refusal>) -> io::Result<()> {
    calls_run_script::print_answer(rt, number_of(&answer))?;
    if let Ok(moved) = answer {
        calls_run_script::print_number(rt, moved)?;
    }
    Ok(())
}

// A trade entered or amended, or its number excluded.
fn trade_call(command: &[u8; 16], book: &mut [u8]) -> Result<(), Refusal> {
    let kind = command[0];
    match kind {
        1 => house::enter(book, calls_run_script::trade_of(command)),
        2 => house::amend(book, calls_run_script::trade_of(command)),
        _ => house::exclude(book, fields::get(command, 1, 2) as u16),
    }
}

fn holding_call(command: &[u8; 16], book: &mut [u8]) -> Result<(), Refusal> {
    let kind = command[0];
    let quantity = fields::get(command, 3, 8);
    match kind {
        5 => house::deposit(book, command[1], command[2], quantity),
        _ => house::withdraw(book, command[1], command[2], quantity),
    }
}

// A call, by its kind in a call file.
fn call(command: &[u8; 16], book: &mut [u8]) -> Result<(), Refusal> {
    let kind = command[0];
    match kind {
        0 => create(book),
        1 | 2 | 3 => trade_call(command, book),
        4 => house::roll(book),
        _ => holding_call(command, book),
    }
}

// What stands in the book: 10 whether it was kept, 11 nothing but a text, 12 some bytes, 13 its records and charges.
fn look(rt: &impl Print, command: &[u8; 16], book: &[u8], copied: &[u8]) -> io::Result<()> {
    let kind = command[0];
    match kind {
        10 => calls_run_script::say_whether_kept(rt, book, copied)?,
        11 => calls_run_script::say(rt, command)?,
        12 => calls_run_script::show(rt, command, book)?,
        _ => calls_run_script::show_all(rt, book)?,
    }
    Ok(())
}

fn obey(rt: &impl Print, command: &[u8; 16], book: &mut [u8], copied: &mut [u8]) -> io::Result<()> {
    let kind = command[0];
    match kind {
        7 => print_run(rt, house::run(book, command[1]))?,
        8 => calls_run_script::write(command, book),
        9 => calls_run_script::copy(book, copied),
        10 | 11 | 12 | 13 => look(rt, command, book, copied)?,
        14 => _ = create(book),
        _ => calls_run_script::print_answer(rt, number_of(&call(command, book)))?,
    }
    Ok(())
}

// Whether the room was filled; false where the input ended before.
fn filled<R: Read>(input: &mut R, room: &mut [u8]) -> io::Result<bool> {
    match input.read_exact(room) {
        Ok(()) => Ok(true),
        Err(e) => {
            if e.kind() == ErrorKind::UnexpectedEof {
                return Ok(false);
            }
            Err(e)
        }
    }
}

fn play<R: Read>(
    rt: &impl Print,
    input: &mut R,
    book: &mut [u8],
    copied: &mut [u8],
) -> io::Result<()> {
    let mut command = [0u8; 16];
    for i in 0..8192usize {
        if !filled(input, &mut command)? {
            return Ok(());
        }
        obey(rt, &command, book, copied)?;
    }
    Ok(())
}

fn main(rt: HostRuntime) -> io::Result<()> {
    let mut book = [0u8; 42278];
    let mut copied = [0u8; 42278];
    play(&rt, &mut rt.stdin(), &mut book, &mut copied)
}
