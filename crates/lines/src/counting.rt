// The tally of lines and bytes (document 01: "moved on by every line; neither passes 1,000,000, and a line that would take one
// past it is refused by 18"), by value.
ghost use Rattle.std.specs.Prelude.{◌≡◌, ◌≤◌};
ghost use Rattle.rules.specs.Refusals.{answered, value_or};
ghost use Rattle.rules.specs.Sheet.{line_answer, line_tally};
ghost use Rattle.lines.specs.Counting.{passes};

use lines_text::line_width;
use rules::{Line, Refusal, Tally};

// Whether a line of so many bytes fits into the room, and takes neither lines nor bytes past 1,000,000.
fn passes(room: usize, size: usize, tally: Tally) -> bool
    requires { size ≤ 114 }
    ensures { result ≡ passes room size tally }
{
    if size > room {
        return false;
    }
    if tally.lines >= 1_000_000 {
        return false;
    }
    (tally.bytes as usize) + size <= 1_000_000
}

// The tally moved on by the line; 18 leaves it as it was.
pub fn count_line(room: usize, l: Line, tally: Tally) -> Result<Tally, Refusal>
    ensures { (answered result ≡ line_answer room l tally) × (value_or tally result ≡ line_tally room l tally) }
{
    let size = line_width(l);
    if !passes(room, size, tally) {
        return Err(Refusal::WrongLength);
    }
    Ok(Tally {
        lines: tally.lines + 1,
        bytes: tally.bytes + size as u32,
    })
}
