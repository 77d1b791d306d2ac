// What several steps do with a row of bytes or of soft values.
#![tactic(auto)]

ghost use Rattle.std.specs.Prelude.{◌≡◌, length, replicate};

// `to` becomes `from`. The loop is compiled into a move where the length is a number, and else into a call of memcpy; the library's
// `copy_from_slice` keeps a test of its own beside each.
pub fn copy<T: Copy>(from: &[T], to: &mut [T])
    requires { length to.old ≡ length from.now }
    ensures { to.new ≡ from.now }
{
    for (i, x) in to.iter_mut().enumerate() {
        *x = from[i];
    }
}

// Every entry becomes the value. The library's `fill` says so only where a type's clone is known to be the value.
pub fn fill<T: Copy>(row: &mut [T], value: T)
    ensures { row.new ≡ replicate (length row.old) value }
{
    for x in row.iter_mut() {
        *x = value;
    }
}

// The row becomes 0.
pub fn clear(row: &mut [u8])
    ensures { row.new ≡ replicate (length row.old) 0 }
{
    fill(row, 0);
}
