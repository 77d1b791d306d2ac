// Which positions of a code may carry information (38.212 5.3.1, 5.4.1): n, the kind of rate matching, and the window that admits
// what is below N and not barred.
#![tactic(auto)]

ghost use Rattle.std.specs.Prelude.{◌≡◌, true, ℕ, ◌-◌, ◌≤◌, ◌<◌, ◌^◌};
ghost use Rattle.nr.specs.Rows.{has};
ghost use Rattle.nr.specs.Answer.{lengths};
ghost use Rattle.nr.specs.Construction.{N, rate_matching, exponent, rank};
ghost use Rattle.admission.specs.Window.{Applies, usable, admits};

use nr::{CodeLength, RateMatching};
use rate_matching::PLACES;

// n, for our lengths. The 9/8 rule, the limit 8K and the floor of 32 never change it (`n-by-length`).
pub fn exponent(e: usize) -> CodeLength
    requires { has e lengths ≡ true }
    ensures { result.n ≡ exponent e }
{
    let n = match e {
        108 => 7,
        216 => 8,
        _ => 9,
    };
    CodeLength { n }
}

// Repetition if E is at least N; else puncturing if K/E is at most 7/16, in whole numbers, else shortening.
#[tactic(auto, using(std::proofs::lemmas::Bool::Decides::nat_tests), unfolding(nr::specs::Construction::rate_matching, nr::specs::Construction::low_rate))]
pub fn rate_matching(k: usize, e: usize, len: usize) -> RateMatching
    requires { (k ≤ 164) × (e ≤ 1728) × (len ≡ N k e) }
    ensures { result ≡ rate_matching k e }
{
    if len <= e {
        RateMatching::Repetition
    } else if 16 * k <= 7 * e {
        RateMatching::Puncturing
    } else {
        RateMatching::Shortening
    }
}

// The i with J(i) = p.
fn rank(length: CodeLength, p: usize) -> usize
    requires { p < 2 ^ length.n }
    ensures { result ≡ rank (length.n - 5) p }
{
    let shift = length.n - 5;
    let block = p >> shift;
    (usize::from(PLACES[block]) << shift) + (p & ((1 << shift) - 1))
}

// Which positions may carry information: those from `front` on whose rank in the sub-block order is at least `lo` and below `hi`.
#[derive(Clone, Copy)]
pub struct Window {
    pub front: usize,
    pub lo: usize,
    pub hi: usize,
}

impl Window {
    // Whether a position is below N and inside the window.
    pub fn admits(self, length: CodeLength, p: usize) -> bool
        ensures { result ≡ admits length.n self p }
    {
        // What is below N lies in one of the 32 sub-blocks: `rank` has this shift too, so that the test costs no other.
        let block = p >> (length.n - 5);
        if PLACES.len() <= block || p < self.front {
            return false;
        }
        let r = rank(length, p);
        self.lo <= r && r < self.hi
    }
}

// The window of a code of N = `len`. For our lengths the prefix is 3N/4 - E/2 (`kind-applies`).
pub fn window_of(kind: RateMatching, len: usize, e: usize) -> Window
    requires { (len ≤ 512) × (e ≤ 1728) × Applies kind len e }
    ensures { (n : ℕ) → 5 ≤ n → len ≡ 2 ^ n → (p : ℕ) → admits n result p ≡ usable kind len e p }
{
    match kind {
        RateMatching::Repetition => Window {
            front: 0,
            lo: 0,
            hi: len,
        },
        RateMatching::Puncturing => Window {
            front: (3 * len - 2 * e + 3) / 4,
            lo: len - e,
            hi: len,
        },
        RateMatching::Shortening => Window {
            front: 0,
            lo: 0,
            hi: e,
        },
    }
}
