// Prints the sheets of many call files: standard input holds them one behind the other, each behind its length in 4
// bytes. Written, with the expected output (stdout), by tests/sheets.py: the files of tests/vectors, one file for each
// sort of damage, and files at and past the longest length.
#![tactic(auto)]

use std::io;
use std::io::{ErrorKind, Read};

fn print_sheet(rt: &impl Print, file: &[u8]) -> io::Result<()> {
    let mut buffer = [0u8; 295620];
    let sheet = sheets::sheet_part(file, &mut buffer);
    rt.write_all(sheet)
}

// Whether the room was filled; false where the input ended before.
fn filled<R: Read>(input: &mut R, room: &mut [u8]) -> io::Result<bool> {
    match input.read_exact(room) {
        Ok(()) => Ok(true),
        Err(e) => {
            if e.kind() == ErrorKind::UnexpectedEof {
                return Ok(false);
            }
            Err(e)
        }
    }
}

// Reads a file that fills the room, and prints its sheet.
fn print_read<R: Read>(rt: &impl Print, input: &mut R, room: &mut [u8]) -> io::Result<bool> {
    if !filled(input, room)? {
        return Ok(false);
    }
    print_sheet(rt, room)?;
    Ok(true)
}

// The next file of standard input, read into a lent room; false at the end.
fn print_next<R: Read>(rt: &impl Print, input: &mut R, room: &mut [u8]) -> io::Result<bool> {
    let mut size = [0u8; 4];
    if !filled(input, &mut size)? {
        return Ok(false);
    }
    let n = fields::get(&size, 0, 4) as usize;
    if room.len() < n {
        return Ok(false);
    }
    print_read(rt, input, &mut room[..n])
}

fn print_all<R: Read>(rt: &impl Print, input: &mut R, room: &mut [u8]) -> io::Result<()> {
    for i in 0..256usize {
        if !print_next(rt, input, room)? {
            return Ok(());
        }
    }
    Ok(())
}

fn main(rt: HostRuntime) -> io::Result<()> {
    let mut room = [0u8; 65536];
    print_all(&rt, &mut rt.stdin(), &mut room)
}
