// The calls on files and lines that the other programs do not make: a file record by record and whole, lines with a
// tally. Standard input holds the whole example of document 01 with one byte behind it, which is a cut record; the
// expected output (stdout) is written by hand from the rules.
#![tactic(auto)]

use rules::{Line, RecordAnswer, Refusal, Tally, number_of};
use std::io;
use std::io::{ErrorKind, Read};
use units::{Counted, Mils, Whole};

fn print_text(rt: &impl Print, text: &[u8]) -> io::Result<()> {
    rt.write_all(text)
}

fn print_number(rt: &impl Print, n: u64) -> io::Result<()> {
    print_text(rt, b" ")?;
    rt.print(n)
}

// ── a file ──

// A record's answer and figure; the place of the next, or 0 where nothing more is read.
fn print_record(rt: &impl Print, answer: RecordAnswer) -> io::Result<u32> {
    match answer {
        RecordAnswer::Answered(n, moved, next) => {
            print_number(rt, n as u64)?;
            let size = moved.size();
            print_number(rt, size.0)?;
            print_text(rt, b";")?;
            Ok(next)
        }
        RecordAnswer::Unreadable(place) => {
            print_text(rt, b" 19")?;
            print_number(rt, place as u64)?;
            print_text(rt, b";")?;
            Ok(0)
        }
        RecordAnswer::Ended => {
            print_text(rt, b" end")?;
            Ok(0)
        }
        RecordAnswer::FileRefused(n) => {
            print_number(rt, n as u64)?;
            Ok(0)
        }
    }
}

fn play_next(rt: &impl Print, book: &mut [u8], file: &[u8], place: u32) -> io::Result<u32> {
    print_record(rt, callfile::play_record(book, file, place))
}

// Create, two trades, two deposits,
fn first_five(rt: &impl Print, book: &mut [u8], file: &[u8]) -> io::Result<u32> {
    let first = play_next(rt, book, file, 1)?;
    let second = play_next(rt, book, file, first)?;
    let third = play_next(rt, book, file, second)?;
    let fourth = play_next(rt, book, file, third)?;
    play_next(rt, book, file, fourth)
}

// two rolls, a run, and the cut record.
fn last_four(rt: &impl Print, book: &mut [u8], file: &[u8], place: u32) -> io::Result<()> {
    let sixth = play_next(rt, book, file, place)?;
    let seventh = play_next(rt, book, file, sixth)?;
    let eighth = play_next(rt, book, file, seventh)?;
    play_next(rt, book, file, eighth)?;
    Ok(())
}

fn record_by_record(rt: &impl Print, book: &mut [u8], file: &[u8]) -> io::Result<()> {
    print_text(rt, b"record by record")?;
    let behind = first_five(rt, book, file)?;
    last_four(rt, book, file, behind)?;
    print_text(rt, b"\n")
}

// 9 bytes for each answer: number 1, figure 8.
fn print_answer(rt: &impl Print, answers: &[u8], index: usize) -> io::Result<()> {
    if 8 < index {
        return Ok(());
    }
    let at = 9 * index;
    if answers.len() < at + 9 {
        return Ok(());
    }
    print_number(rt, fields::get(answers, at, 1))?;
    print_number(rt, fields::get(answers, at + 1, 8))?;
    print_text(rt, b";")
}

fn play_whole(rt: &impl Print, book: &mut [u8], file: &[u8], answers: &mut [u8]) -> io::Result<()> {
    let played = playing::play(book, file, answers);
    print_number(rt, number_of(&played) as u64)?;
    print_number(rt, played.unwrap_or(0) as u64)
}

fn print_last_three(rt: &impl Print, answers: &[u8]) -> io::Result<()> {
    print_text(rt, b":")?;
    print_answer(rt, answers, 6)?;
    print_answer(rt, answers, 7)?;
    print_answer(rt, answers, 8)?;
    print_text(rt, b"\n")
}

// Into room for nine answers, and into a byte less.
fn whole(rt: &impl Print, book: &mut [u8], file: &[u8]) -> io::Result<()> {
    let mut answers = [0u8; 81];
    let mut short = [0u8; 80];
    print_text(rt, b"whole")?;
    play_whole(rt, book, file, &mut short)?;
    print_text(rt, b"; whole")?;
    play_whole(rt, book, file, &mut answers)?;
    print_last_three(rt, &answers)
}

// Both ways, on one book.
fn both(rt: &impl Print, book: &mut [u8], file: &[u8]) -> io::Result<()> {
    record_by_record(rt, book, file)?;
    whole(rt, book, file)
}

// ── lines with a tally ──

// The answer of a line, and the tally that it leaves of the one before.
fn print_counted(
    rt: &impl Print,
    counted: Result<Tally, Refusal>,
    before: Tally,
) -> io::Result<Tally> {
    let t = counted.unwrap_or(before);
    print_number(rt, number_of(&counted) as u64)?;
    print_number(rt, t.lines as u64)?;
    print_number(rt, t.bytes as u64)?;
    print_text(rt, b";")?;
    Ok(t)
}

// "A tally of lines and bytes is lent along": a line of 13 bytes, into room for it and into a byte less, and at the
// tally's bounds.
fn tallied(rt: &impl Print) -> io::Result<()> {
    let mut buffer = [45u8; 13];
    let mut short = [45u8; 12];
    let line = Line::Charge(63, 3, Mils(Whole(-1_000)));
    let first = Tally {
        lines: 999_998,
        bytes: 999_974,
    };
    print_text(rt, b"lines")?;
    let second = print_counted(rt, lines::put_counted(&mut buffer, line, first), first)?;
    print_counted(rt, lines::put_counted(&mut short, line, second), second)?;
    let third = print_counted(rt, lines::put_counted(&mut buffer, line, second), second)?;
    print_counted(
        rt,
        lines::put_counted(&mut buffer, Line::End(0), third),
        third,
    )?;
    print_text(rt, b"\n")?;
    print_text(rt, &buffer)
}

// Whether the room was filled; false where the input ended before, and then the rest of it is as it was.
fn filled<R: Read>(input: &mut R, room: &mut [u8]) -> io::Result<bool> {
    match input.read_exact(room) {
        Ok(()) => Ok(true),
        Err(e) => {
            if e.kind() == ErrorKind::UnexpectedEof {
                return Ok(false);
            }
            Err(e)
        }
    }
}

fn main(rt: HostRuntime) -> io::Result<()> {
    let mut book = [0u8; 42278];
    let mut file = [0u8; 105];
    filled(&mut rt.stdin(), &mut file)?;
    both(&rt, &mut book, &file)?;
    tallied(&rt)
}
