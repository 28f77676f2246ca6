// The figures of a line (document 01: one space between, minus for negatives): each is a field, a space and the figure.
ghost use Rattle.std.specs.Prelude.{◌≡◌, ◌+◌, ◌*◌, ◌≤◌, length};
ghost use Rattle.fields.specs.Field.{stored};
ghost use Rattle.lines_text.specs.LineWords.{field, fields};

use crate::Figure;
use crate::decimals::{put_decimal, width};

// How many bytes a field has.
fn field_width(f: Figure) -> usize
    ensures { (result ≡ length (field f)) × (result ≤ 22) }
{
    let digits = width(f.size);
    if f.minus {
        return digits + 2;
    }
    digits + 1
}

// A field into the buffer from at; the place behind it.
fn put_field(buffer: &mut [u8], at: usize, f: Figure) -> usize
    requires { at + length (field f) ≤ length buffer.old }
    ensures { (result ≡ at + length (field f)) × (buffer.new ≡ stored buffer.old at (field f)) }
{
    buffer[at] = 32;
    if f.minus {
        buffer[at + 1] = 45;
        return put_decimal(buffer, at + 2, f.size);
    }
    put_decimal(buffer, at + 1, f.size)
}

// How many bytes the first `count` figures have as fields.
pub fn fields_width(figures: [Figure; 5], count: usize) -> usize
    requires { count ≤ 5 }
    ensures { (result ≡ length (fields count figures)) × (result ≤ 22 * count) }
{
    let mut size = 0;
    for i in 0..count {
        size += field_width(figures[i]);
    }
    size
}

// The first `count` figures into the buffer from at, as fields; the place behind them.
pub fn put_fields(buffer: &mut [u8], at: usize, figures: [Figure; 5], count: usize) -> usize
    requires { (count ≤ 5) × (at + length (fields count figures) ≤ length buffer.old) }
    ensures { (result ≡ at + length (fields count figures)) × (buffer.new ≡ stored buffer.old at (fields count figures)) }
{
    let mut place = at;
    for i in 0..count {
        place = put_field(buffer, place, figures[i]);
    }
    place
}
