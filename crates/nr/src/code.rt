// A code: its length, how it is rate matched, and its information positions.

ghost use Rattle.std.specs.Prelude.{◌≡◌, ◌≤◌, ◌^◌, take};
ghost use Rattle.nr.specs.Codes.{Positions};

use crate::RateMatching;

// The code length N = 2^n, from 32 to 512.
#[derive(Clone, Copy)]
pub struct CodeLength {
    pub n: usize,
    pub ghost within: { (5 ≤ n) × (n ≤ 9) },
}

impl CodeLength {
    // N.
    pub fn bits(self) -> usize
        ensures { result ≡ 2 ^ self.n }
    {
        1 << self.n
    }
}

// N, how E bits are made of the N code bits, and the k information positions, ascending, in an array that goes on behind them.
#[derive(Clone, Copy)]
pub struct Code {
    pub length: CodeLength,
    pub kind: RateMatching,
    pub k: usize,
    pub positions: [u16; 164],
    pub ghost few: { k ≤ 164 },
    pub ghost placed: { Positions (2 ^ length.n) (take k positions) },
}

impl Code {
    // The information positions.
    pub fn information(&self) -> &[u16]
        ensures { result.now ≡ take self.now.k self.now.positions }
    {
        &self.positions[..self.k]
    }
}
