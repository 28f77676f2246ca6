// The rows of a table stand one behind the other, each in the same number of bytes. Every table of the book is read and
// written here; how one row stands in its bytes is said in the table's own module.
ghost use Rattle.std.specs.Prelude.{◌≡◌, ℕ, ◌+◌, ◌*◌, ◌≤◌, length, drop};
ghost use Rattle.fields.specs.Field.{stored};
ghost use Rattle.fields.specs.Codec.{Codec, read_rows, write_rows};

use std::array;

// What a table can have as its row.
pub trait Row {
    ghost codec: { Codec Self };

    ghost BYTES: { ℕ };

    // How many bytes a row has.
    const BYTES: usize;

    // The row that begins at a byte.
    fn row_at(b: &[u8], at: usize) -> Self
        requires { at + codec.width ≤ length b.now }
        ensures { result ≡ codec.read (drop at b.now) };

    // The row is stored at a byte: every other byte is left as it was.
    fn put_row(self, b: &mut [u8], at: usize)
        requires { at + codec.width ≤ length b.old }
        ensures { b.new ≡ stored b.old at (codec.write self) };

    ghost width_is: { codec.width ≡ BYTES };

    // A row has so many bytes whether its values fit or not.
    ghost sized: { (row : Self) → length (codec.write row) ≡ codec.width };
}

// All rows of a table that begins at a byte, used or not: whether the unused ones are zero is a question of soundness, and a
// book that is lent may hold anything.
pub fn rows_at<T: Row, const N: usize>(b: &[u8], at: usize) -> [T; N]
    requires { at + N * T.BYTES ≤ length b.now }
    ensures { result ≡ read_rows T.codec N (drop at b.now) }
{
    array::from_fn(
        |i: usize| -> T
            requires { at + i * T.BYTES + T.codec.width ≤ length b.now }
        { T::row_at(b, at + i * T::BYTES) },
    )
}

// The rows of a table that begins at a byte, stored one behind the other: every other byte is left as it was.
pub fn put_rows<T: Row + Copy>(rows: &[T], b: &mut [u8], at: usize)
    requires { at + length rows.now * T.BYTES ≤ length b.old }
    ensures { b.new ≡ stored b.old at (write_rows T.codec rows.now) }
{
    for (i, row) in rows.iter().enumerate() {
        row.put_row(b, at + i * T::BYTES);
    }
}
