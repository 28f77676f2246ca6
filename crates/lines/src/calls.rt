// A line is written into a lent buffer and the written part is handed back (document 01, "Call file and sheet").
ghost use Rattle.std.specs.Prelude.{◌≡◌, length};
ghost use Rattle.rules.specs.Refusals.{answered, value_or};
ghost use Rattle.rules.specs.Sheet.{line_answer, line_part, line_spot, line_bytes, line_tally};

use crate::counting::count_line;
use lines_text::put_line;
use rules::{Line, Refusal, Tally, number_of};

// The line at the front of the buffer, the tally by value: answer, tally and every byte. A refused line alters nothing.
pub fn put_counted(buffer: &mut [u8], l: Line, tally: Tally) -> Result<Tally, Refusal>
    ensures { (answered result ≡ line_answer (length buffer.old) l tally)
        × (value_or tally result ≡ line_tally (length buffer.old) l tally)
        × (buffer.new ≡ line_bytes buffer.old l tally) }
{
    let next = count_line(buffer.len(), l, tally)?;
    put_line(buffer, 0, l);
    Ok(next)
}

// The same with the part handed back: the bytes that the tally moved on by, from the front of the buffer. (The number is lent beside it:
// document 01 has the call hand back the part itself, "an empty part" where the line is refused.)
pub fn line_part<'a>(buffer: &'a mut [u8], l: Line, tally: Tally, refusal: &mut u8) -> &'a mut [u8]
    ensures { (result.now ≡ line_part buffer.old l tally)
        × (result.ref_ptr ≡ line_spot buffer.entry.ref_ptr)
        × (refusal.new ≡ line_answer (length buffer.old) l tally) }
{
    let counted = put_counted(buffer, l, tally);
    *refusal = number_of(&counted);
    let next = counted.unwrap_or(tally);
    let size = (next.bytes - tally.bytes) as usize;
    &mut buffer[..size]
}

// The same with the tally lent: this function moves it on, and everything else is `count_line` and `line_part`.
pub fn write_line<'a>(
    buffer: &'a mut [u8],
    l: Line,
    tally: &mut Tally,
    refusal: &mut u8,
) -> &'a mut [u8]
    ensures { (result.now ≡ line_part buffer.old l tally.old)
        × (result.ref_ptr ≡ line_spot buffer.entry.ref_ptr)
        × (tally.new ≡ line_tally (length buffer.old) l tally.old)
        × (refusal.new ≡ line_answer (length buffer.old) l tally.old) }
{
    let before = *tally;
    *tally = count_line(buffer.len(), l, before).unwrap_or(before);
    line_part(buffer, l, before, refusal)
}
