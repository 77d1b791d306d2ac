// Polar coding of a row of bits: each bit at its information position, then the transform, in place: stages of growing blocks,
// each of which adds second halves to first halves.
#![tactic(auto)]

ghost use Rattle.std.specs.Prelude.{◌≡◌, ◌++◌, ◌*◌, ◌/◌, ◌%◌, ◌^◌, ◌<◌, length, take, drop, replicate};
ghost use Rattle.nr.specs.Rows.{xors, Bits};
ghost use Rattle.nr.specs.Transform.{transform};
ghost use Rattle.nr.specs.Coding.{placed};
ghost use Rattle.polar.specs.Blocks.{joined, each};
ghost use Rattle.nr.specs.Codes.{Positions};

// The code bits of two halves become those of the whole: the second half is added to the first. By
// index, since both are of one row.
pub fn combine(block: &mut [u8], half: usize)
    requires block_len { length block.old ≡ 2 * half }
    requires bits { Bits block.old }
    ensures { block.new ≡ xors (take half block.old) (drop half block.old) ++ drop half block.old }
{
    for i in 0..half {
        block[i] ^= block[half + i];
    }
}

// One stage: `combine` in each block of 2 * half entries, one after the other. By index: of blocks that `chunks_exact_mut` lends nothing
// is known once they are back.
fn stage(row: &mut [u8], half: usize)
    requires half_nonzero { 0 < half }
    requires half_len { length row.old % (2 * half) ≡ 0 }
    requires bits { Bits row.old }
    ensures { row.new ≡ each (joined half) (2 * half) (length row.old / (2 * half)) row.old }
{
    // 2 * half itself may not fit its word where the row is empty.
    for b in 0..row.len() / half / 2 {
        let at = 2 * half * b;
        combine(&mut row[at..at + 2 * half], half);
    }
}

// The transform in place, with no bit reversal: u becomes d. After j stages each block of 2 ^ j entries holds its own transform.
pub fn transform(n: usize, row: &mut [u8])
    requires row_len { length row.old ≡ 2 ^ n }
    requires bits { Bits row.old }
    ensures { row.new ≡ transform n row.old }
{
    for j in 0..n {
        stage(row, 1 << j);
    }
}

// Each bit at its information position, in a row that is 0.
pub fn place(bits: &[u8], positions: &[u16], u: &mut [u8])
    requires bits_len { (length bits.now ≡ length positions.now) × Positions (length u.old) positions.now }
    requires u_value { u.old ≡ replicate (length u.old) 0 }
    ensures { u.new ≡ placed (length u.old) positions.now bits.now }
{
    for (i, bit) in bits.iter().enumerate() {
        let p = usize::from(positions[i]);
        u[p] = *bit;
    }
}
