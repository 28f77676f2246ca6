// A sheet written line by line through `lines::write_line` (document 01, "Call file and sheet"): "a line is written into a lent
// buffer and the written part is handed back", "a tally of lines and bytes is lent along and moved on by every line". Each part
// is printed as it comes; of the expected output (stdout) the example's lines are document 01's, the
// others were checked against the rules by hand.
#![tactic(auto)]

ghost use Rattle.std.specs.Prelude.{◌≡◌, length};
ghost use Rattle.rules.specs.Sheet.{line_tally};

use lines::{line_part, write_line};
use rules::{Line, Tally};
use std::io;
use units::{Mils, Shares, Whole};

fn print_text(rt: &impl Print, text: &[u8]) -> io::Result<()> {
    rt.write_all(text)
}

fn print_number(rt: &impl Print, n: u64) -> io::Result<()> {
    print_text(rt, b" ")?;
    rt.print(n)
}

// The part as it was handed back, empty where the line is refused; then the refusal.
fn print_part(rt: &impl Print, part: &mut [u8], refusal: u8) -> io::Result<()> {
    print_text(rt, part)?;
    if refusal != 0 {
        print_text(rt, b"refused")?;
        print_number(rt, refusal as u64)?;
        print_text(rt, b"\n")?;
    }
    Ok(())
}

fn print_tally(rt: &impl Print, t: Tally) -> io::Result<Tally> {
    print_text(rt, b"tally")?;
    print_number(rt, t.lines as u64)?;
    print_number(rt, t.bytes as u64)?;
    print_text(rt, b"\n")?;
    Ok(t)
}

// One line: the tally is lent along, and moved on whether or not the part can be printed.
fn written(rt: &impl Print, buffer: &mut [u8], l: Line, tally: &mut Tally) -> io::Result<()>
    ensures { tally.new ≡ line_tally (length buffer.old) l tally.old }
{
    let mut refusal: u8 = 0;
    let part = write_line(buffer, l, tally, &mut refusal);
    print_part(rt, part, refusal)
}

// ── document 01's whole example ──

fn positions(rt: &impl Print, buffer: &mut [u8], t: Tally) -> io::Result<Tally> {
    let buys = Line::Open(4128, 1, 0, Shares(Whole(350)), Mils(Whole(3_675_000)));
    let sells = Line::Open(4160, 2, 0, Shares(Whole(-350)), Mils(Whole(-3_651_667)));
    let mut tally = t;
    written(rt, buffer, buys, &mut tally)?;
    written(rt, buffer, sells, &mut tally)?;
    Ok(tally)
}

fn charges(rt: &impl Print, buffer: &mut [u8], t: Tally) -> io::Result<Tally> {
    let mut tally = t;
    written(
        rt,
        buffer,
        Line::Charge(1, 0, Mils(Whole(6_825_000))),
        &mut tally,
    )?;
    written(
        rt,
        buffer,
        Line::Charge(2, 0, Mils(Whole(-2_608_333))),
        &mut tally,
    )?;
    written(
        rt,
        buffer,
        Line::Charge(3, 0, Mils(Whole(-4_240_000))),
        &mut tally,
    )?;
    Ok(tally)
}

// "Last in every sheet `E` and the lines above it": they are the tally's.
fn example(rt: &impl Print) -> io::Result<Tally> {
    let mut buffer = [45u8; 32];
    let mut tally = Tally { lines: 0, bytes: 0 };
    written(rt, &mut buffer, Line::Day(2), &mut tally)?;
    let open = positions(rt, &mut buffer, tally)?;
    let mut charged = charges(rt, &mut buffer, open)?;
    written(rt, &mut buffer, Line::End(charged.lines), &mut charged)?;
    Ok(charged)
}

// ── refusals, and the other kinds of line ──

// A line of 13 bytes into a byte less: 18, nothing is printed of it, and the tally is as it was. Into 13 bytes it goes.
fn too_short(rt: &impl Print, t: Tally) -> io::Result<Tally> {
    let mut short = [45u8; 12];
    let mut exact = [45u8; 13];
    let line = Line::Charge(63, 3, Mils(Whole(-1_000)));
    let mut tally = print_tally(rt, t)?;
    written(rt, &mut short, line, &mut tally)?;
    let mut same = print_tally(rt, tally)?;
    written(rt, &mut exact, line, &mut same)?;
    print_tally(rt, same)
}

// "Neither passes 1,000,000, and a line that would take one past it is refused by 18": the lines, and the bytes.
fn at_the_bounds(rt: &impl Print) -> io::Result<()> {
    let mut buffer = [45u8; 32];
    let mut lines = Tally {
        lines: 1_000_000,
        bytes: 999_996,
    };
    let mut bytes = Tally {
        lines: 999_999,
        bytes: 999_997,
    };
    let mut last = Tally {
        lines: 999_999,
        bytes: 999_996,
    };
    written(rt, &mut buffer, Line::End(0), &mut lines)?;
    print_tally(rt, lines)?;
    written(rt, &mut buffer, Line::End(0), &mut bytes)?;
    print_tally(rt, bytes)?;
    written(rt, &mut buffer, Line::End(0), &mut last)?;
    print_tally(rt, last)?;
    Ok(())
}

// A refused call, and an unreadable record.
fn refused(rt: &impl Print, t: Tally) -> io::Result<Tally> {
    let mut buffer = [45u8; 32];
    let mut tally = t;
    written(rt, &mut buffer, Line::Refusal(65_534, 13), &mut tally)?;
    written(rt, &mut buffer, Line::Place(104), &mut tally)?;
    print_tally(rt, tally)
}

// The writer below it: the tally by value, and only the part comes back.
fn by_value(rt: &impl Print, t: Tally) -> io::Result<()> {
    let mut buffer = [45u8; 32];
    let mut refusal: u8 = 0;
    let part = line_part(&mut buffer, Line::Day(60_000), t, &mut refusal);
    print_part(rt, part, refusal)
}

fn main(rt: HostRuntime) -> io::Result<()> {
    let after = refused(&rt, too_short(&rt, example(&rt)?)?)?;
    at_the_bounds(&rt)?;
    by_value(&rt, after)
}
