// The text of a line (document 01, "Call file and sheet"): its head, its figures, and a newline.
ghost use Rattle.std.specs.Prelude.{◌≡◌, ◌+◌, ◌≤◌, length};
ghost use Rattle.fields.specs.Field.{stored};
ghost use Rattle.rules.specs.Sheet.{text_of};
ghost use Rattle.lines_text.specs.LineWords.{head_text};

use crate::figures::{fields_width, put_fields};
use crate::wording::words_of;
use rules::Line;

fn head_width(head: u8) -> usize
    ensures { (result ≡ length (head_text head)) × (result ≤ 3) }
{
    if head == 68 {
        return 3;
    }
    1
}

// The head into the buffer from at; the place behind it.
fn put_head(buffer: &mut [u8], at: usize, head: u8) -> usize
    requires { at + length (head_text head) ≤ length buffer.old }
    ensures { (result ≡ at + length (head_text head)) × (buffer.new ≡ stored buffer.old at (head_text head)) }
{
    buffer[at] = head;
    if head == 68 {
        buffer[at + 1] = 65;
        buffer[at + 2] = 89;
        return at + 3;
    }
    at + 1
}

// How many bytes a line has.
pub fn line_width(l: Line) -> usize
    ensures { (result ≡ length (text_of l)) × (result ≤ 114) }
{
    let w = words_of(l);
    let figures = w.figures;
    head_width(w.head) + fields_width(figures, w.count) + 1
}

// A line into the buffer from at; the place behind it.
pub fn put_line(buffer: &mut [u8], at: usize, l: Line) -> usize
    requires { at + length (text_of l) ≤ length buffer.old }
    ensures { (result ≡ at + length (text_of l)) × (buffer.new ≡ stored buffer.old at (text_of l)) }
{
    let w = words_of(l);
    let figures = w.figures;
    let behind = put_head(buffer, at, w.head);
    let end = put_fields(buffer, behind, figures, w.count);
    buffer[end] = 10;
    end + 1
}
