// Unused room is zero: a part of the book is emptied by bytes of 0.
ghost use Rattle.std.specs.Prelude.{◌≡◌, ◌-◌, ◌≤◌, length, replicate};
ghost use Rattle.fields.specs.Field.{stored};

// Bytes of 0 from one place up to another.
pub(crate) fn put_zeros(b: &mut [u8], from: usize, to: usize)
    requires { (from ≤ to) × (to ≤ length b.old) }
    ensures { b.new ≡ stored b.old from (replicate (to - from) 0) }
{
    b[from..to].fill(0);
}
