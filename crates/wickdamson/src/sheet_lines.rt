// The lines of the sheet, one by one (document 01, "Call file and sheet"; refusal 18): each kind of line as its figures, the
// tally as two lent numbers. A figure that is too wide for its line is refused, and never cut to another.
ghost use Rattle.std.specs.Prelude.{◌||◌};
ghost use Rattle.rules.specs.Words.{above};
ghost use Rattle.units.specs.Units.{shares, mils};
ghost use Rattle.rules.specs.declared.Line.TheVariants.{Refusal, Place, Day, Open, Charge, End};
ghost use Rattle.wickdamson.specs.Lines.{LineWritten, LineOffered};

use crate::wide::past_byte;
use lines::put_counted;
use rules::{Line, Tally, number_of};
use units::{Mils, Shares, Whole};

// A line of any kind at the front of the buffer. The tally moves on by the bytes written, none where it is refused.
fn write(buffer: &mut [u8], l: Line, lines: &mut u32, bytes: &mut u32, size: &mut usize) -> u8
    ensures { LineWritten l buffer.old lines.old bytes.old result buffer.new lines.new bytes.new size.new }
{
    let before = Tally {
        lines: *lines,
        bytes: *bytes,
    };
    let counted = put_counted(buffer, l, before);
    let after = counted.unwrap_or(before);
    *size = (after.bytes - before.bytes) as usize;
    *lines = after.lines;
    *bytes = after.bytes;
    number_of(&counted)
}

#[unsafe(no_mangle)]
pub extern "C" fn wick_line_refusal(
    buffer: &mut [u8],
    index: u32,
    refusal: u32,
    lines: &mut u32,
    bytes: &mut u32,
    size: &mut usize,
) -> u8
    ensures { LineOffered (above 255 refusal) (Refusal index refusal) buffer.old lines.old bytes.old result buffer.new lines.new bytes.new size.new }
{
    if refusal > 255 {
        *size = 0;
        return 18;
    }
    let n = refusal as u8;
    let line = Line::Refusal(index, n);
    write(buffer, line, lines, bytes, size)
}

#[unsafe(no_mangle)]
pub extern "C" fn wick_line_place(
    buffer: &mut [u8],
    place: u32,
    lines: &mut u32,
    bytes: &mut u32,
    size: &mut usize,
) -> u8
    ensures { LineWritten (Place place) buffer.old lines.old bytes.old result buffer.new lines.new bytes.new size.new }
{
    let line = Line::Place(place);
    write(buffer, line, lines, bytes, size)
}

#[unsafe(no_mangle)]
pub extern "C" fn wick_line_day(
    buffer: &mut [u8],
    day: u32,
    lines: &mut u32,
    bytes: &mut u32,
    size: &mut usize,
) -> u8
    ensures { LineOffered (above 65_535 day) (Day day) buffer.old lines.old bytes.old result buffer.new lines.new bytes.new size.new }
{
    if day > 65535 {
        *size = 0;
        return 18;
    }
    let d = day as u16;
    let line = Line::Day(d);
    write(buffer, line, lines, bytes, size)
}

#[unsafe(no_mangle)]
pub extern "C" fn wick_line_open(
    buffer: &mut [u8],
    number: u32,
    account: u32,
    security: u32,
    quantity: i64,
    money: i64,
    lines: &mut u32,
    bytes: &mut u32,
    size: &mut usize,
) -> u8
    ensures { LineOffered (above 255 account || above 255 security) (Open number account security (shares quantity) (mils money)) buffer.old lines.old bytes.old result buffer.new lines.new bytes.new size.new }
{
    if past_byte(account, security) {
        *size = 0;
        return 18;
    }
    let a = account as u8;
    let s = security as u8;
    let q = Shares(Whole(quantity));
    let m = Mils(Whole(money));
    let line = Line::Open(number, a, s, q, m);
    write(buffer, line, lines, bytes, size)
}

#[unsafe(no_mangle)]
pub extern "C" fn wick_line_charge(
    buffer: &mut [u8],
    account: u32,
    currency: u32,
    charge: i64,
    lines: &mut u32,
    bytes: &mut u32,
    size: &mut usize,
) -> u8
    ensures { LineOffered (above 255 account || above 255 currency) (Charge account currency (mils charge)) buffer.old lines.old bytes.old result buffer.new lines.new bytes.new size.new }
{
    if past_byte(account, currency) {
        *size = 0;
        return 18;
    }
    let a = account as u8;
    let c = currency as u8;
    let m = Mils(Whole(charge));
    let line = Line::Charge(a, c, m);
    write(buffer, line, lines, bytes, size)
}

#[unsafe(no_mangle)]
pub extern "C" fn wick_line_end(
    buffer: &mut [u8],
    above: u32,
    lines: &mut u32,
    bytes: &mut u32,
    size: &mut usize,
) -> u8
    ensures { LineWritten (End above) buffer.old lines.old bytes.old result buffer.new lines.new bytes.new size.new }
{
    let line = Line::End(above);
    write(buffer, line, lines, bytes, size)
}
