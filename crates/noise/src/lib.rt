// The noise count of a row of soft values against the bits that a code word sends.
#![tactic(auto)]

ghost use Rattle.std.specs.Prelude.{◌≡◌, ◌≤◌, ◌^◌, length};
ghost use Rattle.nr.specs.Rows.{xors, Bits};
ghost use Rattle.nr.specs.RateMatching.{select, Fits};
ghost use Rattle.nr.specs.Noise.{wrong, noise_count};

use nr::{CodeLength, RateMatching};

// Whether a soft value has the wrong sign for a bit.
fn is_wrong(bit: u8, x: i32) -> bool
    ensures { result ≡ wrong bit x }
{
    if bit == 0 { x < 0 } else { 0 < x }
}

// The noise count against the sent bits with the scrambling sequence added.
fn count_wrong(sent: &[u8], sequence: &[u8], soft: &[i32]) -> u32
    requires sent_len { (length sent.now ≡ length soft.now) × (length sequence.now ≡ length soft.now) × (length soft.now ≤ 1728) }
    requires bits { Bits sent.now × Bits sequence.now }
    ensures { result ≡ noise_count soft.now (xors sent.now sequence.now) }
{
    let mut wrong = 0;
    for (k, &x) in soft.iter().enumerate() {
        wrong += u32::from(is_wrong(sent[k] ^ sequence[k], x));
    }
    wrong
}

// The noise count against a code word, rate matched and scrambled with the sequence.
pub fn count(
    kind: RateMatching,
    code: CodeLength,
    word: &[u8],
    sequence: &[u8],
    soft: &[i32],
) -> u32
    requires le_n { Fits kind (2 ^ code.n) (length soft.now) × (length soft.now ≤ 1728) }
    requires word_len { (length word.now ≡ 2 ^ code.n) × (length sequence.now ≡ length soft.now) × Bits word.now × Bits sequence.now }
    ensures { result ≡ noise_count soft.now (xors (select kind (2 ^ code.n) (length soft.now) word.now) sequence.now) }
{
    let mut room = [0u8; 512];
    let y = &mut room[..code.bits()];
    rate_matching::interleave(code, word, y);
    let mut bits = [0u8; 1728];
    let sent = &mut bits[..soft.len()];
    rate_matching::bit_selection(kind, y, sent);
    count_wrong(sent, sequence, soft)
}
