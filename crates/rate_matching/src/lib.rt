// Rate matching (38.212 5.4.1): the code word in sub-block order, and of it the bits that are sent; and undone in soft values.
#![tactic(auto)]

ghost use Rattle.std.specs.Prelude.{◌≡◌, ℕ, map, ◌+◌, ◌-◌, ◌*◌, ◌/◌, ◌≤◌, ◌<◌, ◌%◌, ◌^◌, pos, length, replicate, slice_index, slice_index_or};
ghost use Rattle.nr.specs.Rows.{count, entries, Within};
ghost use Rattle.nr.specs.RateMatching.{sub_blocks, selected, select, Fits};
ghost use Rattle.nr.specs.SuccessiveDecoder.{plus, gather, code_row};

use nr::{CodeLength, RateMatching};

// P: which of the code word's 32 sub-blocks comes first, second, .. (Table 5.4.1.1-1).
pub static SUB_BLOCKS: [u8; 32] = [
    0, 1, 2, 4, 3, 5, 6, 7, 8, 16, 9, 17, 10, 18, 11, 19, 12, 20, 13, 21, 14, 22, 15, 23, 24, 25,
    26, 28, 27, 29, 30, 31,
];

// And back: at which place the code word's sub-block 0, 1, .. comes.
pub static PLACES: [u8; 32] = [
    0, 1, 2, 4, 3, 5, 6, 7, 8, 10, 12, 14, 16, 18, 20, 22, 9, 11, 13, 15, 17, 19, 21, 23, 24, 25,
    26, 28, 27, 29, 30, 31,
];

// The value of a shortened position, whose bit is known to be 0.
const CERTAIN: i32 = 1_048_576;

// Each of a row's 32 sub-blocks, as a whole: the order names the one that comes to its place.
fn copy_blocks<T: Copy>(order: &[u8; 32], code: CodeLength, from: &[T], to: &mut [T])
    requires sizes { (length from.now ≡ 2 ^ code.n) × (length to.old ≡ 2 ^ code.n) }
    requires named { (b : ℕ) → b < 32 → slice_index order.now b < 32 }
    ensures { (none : T) (i : ℕ) → i < 2 ^ code.n → slice_index_or to.new i none ≡ slice_index_or from.now (slice_index order.now (i / 2 ^ (code.n - 5)) * 2 ^ (code.n - 5) + i % 2 ^ (code.n - 5)) none }
{
    let size = 1 << (code.n - 5);
    for (b, named) in order.iter().enumerate() {
        let start = usize::from(*named) * size;
        let at = b * size;
        rows::copy(&from[start..start + size], &mut to[at..at + size]);
    }
}

// y_i = d at J(i) (5.4.1.1): J moves the sub-blocks. With n as a number the loop is compiled into one or two moves for each of them, and
// not into a call for each.
fn sub_blocks(code: CodeLength, d: &[u8], y: &mut [u8])
    requires { (length d.now ≡ 2 ^ code.n) × (length y.old ≡ 2 ^ code.n) }
    ensures { y.new ≡ sub_blocks (2 ^ code.n) d.now }
{
    match code.n {
        7 => copy_blocks(&SUB_BLOCKS, CodeLength { n: 7 }, d, y),
        8 => copy_blocks(&SUB_BLOCKS, CodeLength { n: 8 }, d, y),
        9 => copy_blocks(&SUB_BLOCKS, CodeLength { n: 9 }, d, y),
        _ => copy_blocks(&SUB_BLOCKS, code, d, y),
    }
}

// The code word d in sub-block order, by the plain loop: `select` is compiled into the coder, and would not be if it had a second
// caller.
pub fn interleave(code: CodeLength, d: &[u8], y: &mut [u8])
    requires { (length d.now ≡ 2 ^ code.n) × (length y.old ≡ 2 ^ code.n) }
    ensures { y.new ≡ sub_blocks (2 ^ code.n) d.now }
{
    copy_blocks(&SUB_BLOCKS, code, d, y);
}

// The whole y, over and over, until the output is full.
fn repeat(y: &[u8], out: &mut [u8])
    requires { 0 < length y.now }
    ensures { out.new ≡ entries (map (λ k. k % length y.now) (count 0 (length out.old))) y.now }
{
    let e = out.len();
    for at in (0..e).step_by(y.len()) {
        let size = y.len().min(e - at);
        rows::copy(&y[..size], &mut out[at..at + size]);
    }
}

// The sent bits of y (5.4.1.2): over and over if they are more than y has, else y's end or its front.
pub fn bit_selection(kind: RateMatching, y: &[u8], out: &mut [u8])
    requires { (0 < length y.now) × Fits kind (length y.now) (length out.old) }
    ensures { out.new ≡ entries (map (selected kind (length y.now) (length out.old)) (count 0 (length out.old))) y.now }
{
    let e = out.len();
    match kind {
        RateMatching::Repetition => repeat(y, out),
        RateMatching::Puncturing => rows::copy(&y[y.len() - e..], out),
        RateMatching::Shortening => rows::copy(&y[..e], out),
    }
}

// The E sent bits of the code word d.
pub fn select(kind: RateMatching, code: CodeLength, d: &[u8], out: &mut [u8])
    requires { (length d.now ≡ 2 ^ code.n) × Fits kind (2 ^ code.n) (length out.old) }
    ensures { out.new ≡ select kind (2 ^ code.n) (length out.old) d.now }
{
    let mut room = [0u8; 512];
    let y = &mut room[..code.bits()];
    sub_blocks(code, d, y);
    bit_selection(kind, y, out);
}

// A piece added to y, place by place.
fn add(piece: &[i32], y: &mut [i32])
    requires { (length piece.now ≤ length y.old) × Within 127 piece.now × Within (2 ^ 20) y.old }
    ensures { y.new ≡ plus piece.now y.old }
{
    for (k, a) in piece.iter().enumerate() {
        y[k] += *a;
    }
}

// Repetition undone in a row that is 0: all pieces of y's length added, the last of which may be shorter.
fn add_up(soft: &[i32], y: &mut [i32])
    requires y_nonzero { (0 < length y.old) × (length y.old ≤ length soft.now) × (length soft.now ≤ 1728) × Within 127 soft.now }
    requires y_value { y.old ≡ replicate (length y.old) (pos 0) }
    ensures { y.new ≡ gather RateMatching.Repetition (length y.old) (length soft.now) soft.now }
{
    for piece in soft.chunks(y.len()) {
        add(piece, y);
    }
}

// Puncturing undone in a row that is 0: the values stand at its end.
fn put_last(soft: &[i32], y: &mut [i32])
    requires { (length soft.now < length y.old) × (y.old ≡ replicate (length y.old) (pos 0)) }
    ensures { y.new ≡ gather RateMatching.Puncturing (length y.old) (length soft.now) soft.now }
{
    let start = y.len() - soft.len();
    rows::copy(soft, &mut y[start..]);
}

// Shortening undone: the values, and certain ones behind them.
fn put_first(soft: &[i32], y: &mut [i32])
    requires { length soft.now < length y.old }
    ensures { y.new ≡ gather RateMatching.Shortening (length y.old) (length soft.now) soft.now }
{
    let (front, rest) = y.split_at_mut(soft.len());
    rows::copy(soft, front);
    rows::fill(rest, CERTAIN);
}

// Bit selection undone in a row that is 0: the values by sub-block order.
fn undo_bit_selection(kind: RateMatching, soft: &[i32], y: &mut [i32])
    requires y_nonzero { (0 < length y.old) × Fits kind (length y.old) (length soft.now) × (length soft.now ≤ 1728) × Within 127 soft.now }
    requires y_value { y.old ≡ replicate (length y.old) (pos 0) }
    ensures { y.new ≡ gather kind (length y.old) (length soft.now) soft.now }
{
    match kind {
        RateMatching::Repetition => add_up(soft, y),
        RateMatching::Puncturing => put_last(soft, y),
        RateMatching::Shortening => put_first(soft, y),
    }
}

// The N values by position, of the E soft values that came.
pub fn gather(kind: RateMatching, code: CodeLength, soft: &[i32], row: &mut [i32])
    requires { Fits kind (2 ^ code.n) (length soft.now) × (length row.old ≡ 2 ^ code.n) × (length soft.now ≤ 1728) × Within 127 soft.now }
    ensures { row.new ≡ code_row kind (2 ^ code.n) (length soft.now) soft.now }
{
    let mut room = [0i32; 512];
    let y = &mut room[..code.bits()];
    undo_bit_selection(kind, soft, y);
    copy_blocks(&PLACES, code, y, row);
}
