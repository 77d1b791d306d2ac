// Scrambling: the Gold sequence of 38.211 5.2.1 added to a row of bits, 16 terms at a time, and undone in a row of soft values.
#![tactic(auto)]

ghost use Rattle.std.specs.Prelude.{◌≡◌, ◌≤◌, ◌<◌, ◌^◌, nat_abs, length};
ghost use Rattle.nr.specs.Rows.{xors, Bits, Within};
ghost use Rattle.nr.specs.Scrambling.{step1, step2, after, terms, gold, c_init};
ghost use Rattle.nr.specs.SuccessiveDecoder.{negate_if, descramble};

use nr::Numbers;

// Where the sequence starts: x2's first 31 terms, as the bits of a number, the first the lowest.
#[derive(Clone, Copy, PartialEq, Eq)]
pub struct Seed {
    pub bits: u32,
    ghost small: { bits < 2 ^ 31 },
}

// The two 31-bit registers of the sequence: a register's lowest bit is the first to go out.
#[derive(Clone, Copy)]
pub struct Registers {
    pub x1: u32,
    pub x2: u32,
    ghost x1_small: { x1 < 2 ^ 31 },
    ghost x2_small: { x2 < 2 ^ 31 },
}

// The four bits of 0 .. 15, lowest first, as digits: one read of it serves four entries.
static NIBBLES: [u8; 64] = *b"0000100001001100001010100110111000011001010111010011101101111111";

impl Registers {
    // 16 terms on, at once: the 16 new terms need only terms that the registers hold. The sum of x2's four terms is taken as a sum
    // of sums of two.
    fn ahead(self) -> Registers
        ensures { (result.x1 ≡ after step1 16 self.x1) × (result.x2 ≡ after step2 16 self.x2) }
    {
        let Registers { x1, x2 } = self;
        let t = x2 ^ (x2 >> 1);
        Registers {
            x1: (x1 >> 16) + (((x1 ^ (x1 >> 3)) & 0xffff) << 15),
            x2: (x2 >> 16) + (((t ^ (t >> 2)) & 0xffff) << 15),
        }
    }

    // 1,600 terms on: 38.211 takes the sequence from there.
    pub fn start(self) -> Registers
        ensures { (result.x1 ≡ after step1 1600 self.x1) × (result.x2 ≡ after step2 1600 self.x2) }
    {
        let mut later = self;
        for _ in 0..100u32 {
            later = later.ahead();
        }
        later
    }

    // The terms that the registers hold, lowest first, added to a row that is no longer than they are.
    fn add_terms(self, row: &mut [u8])
        requires row_len_bound { length row.old ≤ 31 }
        requires bits { Bits row.old }
        ensures { row.new ≡ xors row.old (terms (length row.old) self.x1 self.x2) }
    {
        let word = self.x1 ^ self.x2;
        for (i, bit) in row.iter_mut().enumerate() {
            let j = i & 3;
            let k = i - j;
            let nibble = ((word >> k) & 15) as usize;
            *bit ^= NIBBLES[nibble * 4 + j] & 1;
        }
    }

    // The sequence that the registers go on with, added to a row of any length: by whole blocks of 16, then the rest.
    // By index: of parts that `chunks_exact_mut` lends nothing is known once they are back.
    fn add_sequence(self, row: &mut [u8])
        requires { Bits row.old }
        ensures { row.new ≡ xors row.old (terms (length row.old) self.x1 self.x2) }
    {
        let mut state = self;
        let whole = row.len() / 16;
        for block in 0..whole {
            let at = 16 * block;
            state.add_terms(&mut row[at..at + 16]);
            state = state.ahead();
        }
        state.add_terms(&mut row[16 * whole..]);
    }
}

// The Gold sequence that x2 starts with the bits of `seed`, added to the row.
pub fn scramble(seed: Seed, row: &mut [u8])
    requires { Bits row.old }
    ensures { row.new ≡ xors row.old (gold seed.bits (length row.old)) }
{
    let r = Registers {
        x1: 1,
        x2: seed.bits,
    };
    r.start().add_sequence(row);
}

// The Gold sequence that x2 starts with the bits of `seed`, as a row: added to zeros.
pub fn sequence(seed: Seed, row: &mut [u8])
    ensures { row.new ≡ gold seed.bits (length row.old) }
{
    rows::clear(row);
    scramble(seed, row);
}

// c_init of 38.211 7.3.2.3: the seed that a call's numbers give. Before the mask it has 32 bits, so that nothing wraps.
pub fn c_init(numbers: Numbers) -> Seed
    ensures { result.bits ≡ c_init numbers }
{
    Seed {
        bits: (u32::from(numbers.n_rnti) * 65536 + u32::from(numbers.n_id)) & 0x7fffffff,
    }
}

// A soft value, negated where the scrambling bit is 1.
fn negate_if(x: i32, bit: u8) -> i32
    requires { nat_abs x ≤ 127 }
    ensures { result ≡ negate_if bit x }
{
    if bit == 0 { x } else { -x }
}

// The same for a row.
pub fn negate(bits: &[u8], soft: &[i32], out: &mut [i32])
    requires { (length bits.now ≡ length soft.now) × (length out.old ≡ length soft.now) × Within 127 soft.now }
    ensures { out.new ≡ descramble bits.now soft.now }
{
    for (k, value) in out.iter_mut().enumerate() {
        *value = negate_if(soft[k], bits[k]);
    }
}
