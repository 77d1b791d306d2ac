// The declared types of document 01's calls. What they mean is defined in specs/.
#![tactic(auto)]

mod code;

ghost use Rattle.std.specs.Prelude.{◌≡◌};
ghost use Rattle.nr.specs.Answer.{refusal};

pub use code::{Code, CodeLength};

// The numbers that set a call: payload size A, coded length E, RNTI, scrambling identity n_ID, and n_RNTI, which is 0 where the
// scrambler starts from n_ID alone.
#[derive(Clone, Copy)]
pub struct Numbers {
    pub a: u64,
    pub e: u64,
    pub rnti: u16,
    pub n_id: u16,
    pub n_rnti: u16,
}

// Sizes that are accepted: none of 1 to 3 applies to A and E.
#[derive(Clone, Copy, PartialEq, Eq)]
pub struct Sizes {
    pub a: u64,
    pub e: u64,
    pub ghost accepted: { refusal a e ≡ 0 },
}

// A candidate of a search: a message that may lie in `level` CCEs from CCE `first` on, its payload size A, its RNTI and its n_RNTI.
#[derive(Clone, Copy)]
pub struct Candidate {
    pub first: u32,
    pub level: u32,
    pub a: u32,
    pub rnti: u32,
    pub n_rnti: u32,
}

// How E coded bits are made of N code bits (38.212 5.4.1).
#[derive(Clone, Copy)]
pub enum RateMatching {
    Repetition,
    Puncturing,
    Shortening,
}

// Why a call did no work. `number` and `place_of` of specs/Answer.antt give document 01's number and place for each.
#[derive(Clone, Copy)]
pub enum Refusal {
    // 1: A outside 12..140.
    PayloadSize,
    // 2: E is none of the coded lengths.
    CodedLength,
    // 3: K > E.
    TooManyBits,
    // 4: the input's length is not A (coding) or E (decoding).
    InputLength,
    // 5: the output's length is not E (coding) or A (decoding).
    OutputLength,
    // 6: a payload byte above 1 or a soft value outside -127..127, with the place of the first.
    BadEntry(usize),
    // 7: decoding ran, the parity does not match.
    ParityMismatch,
    // 8: none of a search's candidates decodes.
    NoCandidate,
}
