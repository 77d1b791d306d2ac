// What a call refuses before it does its work: by its sizes, and by the entries of its inputs.
#![tactic(auto)]

ghost use Rattle.std.specs.Prelude.{◌≡◌, IfOk};
ghost use Rattle.nr.specs.Rows.{has};
ghost use Rattle.nr.specs.Answer.{lengths};
ghost use Rattle.nr.specs.Coding.{bad_byte};
ghost use Rattle.checks.specs.Checks.{size_refusal, Says, beyond, first_at};

use nr::{Refusal, Sizes};

// Whether E is one of the coded lengths.
pub fn is_coded_length(e: u64) -> bool
    ensures { result ≡ has e lengths }
{
    matches!(e, 108 | 216 | 432 | 864 | 1728)
}

// The sizes A and E, unless one of 1 to 5 applies: then the first that does.
#[tactic(auto, using(std::proofs::lemmas::Bool::Decides::nat_tests), unfolding(nr::specs::Answer::number, nr::specs::Answer::place_of, nr::specs::Answer::refusal))]
pub fn check_sizes(
    a: u64,
    e: u64,
    input: usize,
    asked: u64,
    out: usize,
    wanted: u64,
) -> Result<Sizes, Refusal>
    ensures says { Says (size_refusal a e input asked out wanted) result }
    ensures sizes { IfOk result (λ s. (s.a ≡ a) × (s.e ≡ e)) }
{
    if !(12..=140).contains(&a) {
        return Err(Refusal::PayloadSize);
    }
    if !is_coded_length(e) {
        return Err(Refusal::CodedLength);
    }
    if e < a + 24 {
        return Err(Refusal::TooManyBits);
    }
    if input as u64 != asked {
        return Err(Refusal::InputLength);
    }
    if out as u64 != wanted {
        return Err(Refusal::OutputLength);
    }
    Ok(Sizes { a, e })
}

// The place of the first byte above 1.
pub fn first_bad(payload: &[u8]) -> Option<usize>
    ensures { result ≡ first_at bad_byte payload.now }
{
    payload.iter().position(|byte| 1 < *byte)
}

// Whether a value is below `low` or above `high`.
pub fn is_outside(x: i32, low: i32, high: i32) -> bool
    ensures { result ≡ beyond low high x }
{
    x < low || high < x
}

// The place of the first such value of a row.
pub fn first_outside(row: &[i32], low: i32, high: i32) -> Option<usize>
    ensures { result ≡ first_at (beyond low high) row.now }
{
    row.iter().position(|x| is_outside(*x, low, high))
}
