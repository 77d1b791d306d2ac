// The C interface (include/speltfeather.h).
#![tactic(auto)]

ghost use Rattle.std.specs.Prelude.{ℕ, ◌≡◌, ◌+◌, ◌*◌, ◌<◌, ◌^◌, Err};
ghost use Rattle.nr.specs.Answer.{number, place_of, reading};
ghost use Rattle.nr.specs.Coding.{coding};
ghost use Rattle.nr.specs.Decoding.{decoding};
ghost use Rattle.nr.specs.Loopback.{looped};
ghost use Rattle.nr.specs.Describing.{describing};
ghost use Rattle.nr.specs.Searching.{searching};
ghost use Rattle.dci.specs.Judged.{counted};
ghost use Rattle.speltfeather.specs.Packed.{numbers, Returns, named};

use nr::{Numbers, Refusal};

// A refusal as one number: its own in bits 0 to 7, and the place that it carries from bit 8 on.
#[tactic(auto, unfolding(nr::specs::Answer::number, nr::specs::Answer::place_of))]
fn pack(refusal: Refusal) -> u64
    requires { place_of {X = ℕ} (Err refusal) < 2 ^ 16 }
    ensures { result ≡ number {X = ℕ} (Err refusal) + 2 ^ 8 * place_of {X = ℕ} (Err refusal) }
{
    match refusal {
        Refusal::PayloadSize => 1,
        Refusal::CodedLength => 2,
        Refusal::TooManyBits => 3,
        Refusal::InputLength => 4,
        Refusal::OutputLength => 5,
        Refusal::BadEntry(place) => 6 + 256 * (place as u64),
        Refusal::ParityMismatch => 7,
        Refusal::NoCandidate => 8,
    }
}

// An answer that counts: the noise count stands from bit 24 on, and a refusal has none.
#[tactic(auto, unfolding(nr::specs::Answer::number, nr::specs::Answer::place_of, dci::specs::Judged::counted))]
fn pack_counted(answer: Result<u32, Refusal>) -> u64
    requires { place_of answer < 2 ^ 16 }
    ensures { result ≡ number answer + 2 ^ 8 * place_of answer + 2 ^ 24 * counted answer }
{
    match answer {
        Ok(noise) => 16777216 * u64::from(noise),
        Err(refusal) => pack(refusal),
    }
}

// The numbers of a call, which C passes one by one.
fn as_numbers(a: u64, e: u64, rnti: u16, n_id: u16, n_rnti: u16) -> Numbers
    ensures { result ≡ numbers a e rnti n_id n_rnti }
{
    Numbers {
        a,
        e,
        rnti,
        n_id,
        n_rnti,
    }
}

// Codes a payload: `dci::encode`, with the numbers one by one and the answer as one number.
#[unsafe(no_mangle)]
pub extern "C" fn spelt_encode(
    a: u64,
    e: u64,
    rnti: u16,
    n_id: u16,
    n_rnti: u16,
    payload: &[u8],
    out: &mut [u8],
) -> u64
    ensures { Returns (reading (coding (numbers a e rnti n_id n_rnti) payload.now out.old) 0) result out.new }
{
    match dci::encode(as_numbers(a, e, rnti, n_id, n_rnti), payload, out) {
        Ok(()) => 0,
        Err(refusal) => pack(refusal),
    }
}

// Decodes soft values: `dci::decode`.
#[unsafe(no_mangle)]
pub extern "C" fn spelt_decode(
    a: u64,
    e: u64,
    rnti: u16,
    n_id: u16,
    n_rnti: u16,
    soft: &[i32],
    out: &mut [u8],
) -> u64
    ensures { Returns (decoding (numbers a e rnti n_id n_rnti) soft.now out.old) result out.new }
{
    let decoded = dci::decode(as_numbers(a, e, rnti, n_id, n_rnti), soft, out);
    pack_counted(decoded)
}

// The self-test: `self_test::loopback`.
#[unsafe(no_mangle)]
pub extern "C" fn spelt_loopback(
    a: u64,
    e: u64,
    rnti: u16,
    n_id: u16,
    n_rnti: u16,
    payload: &[u8],
    strengths: &[i32],
    out: &mut [u8],
) -> u64
    ensures { Returns (looped (numbers a e rnti n_id n_rnti) payload.now strengths.now out.old) result out.new }
{
    let looped = self_test::loopback(
        as_numbers(a, e, rnti, n_id, n_rnti),
        payload,
        strengths,
        out,
    );
    pack_counted(looped)
}

// What each position of a code is for: `dci::describe`.
#[unsafe(no_mangle)]
pub extern "C" fn spelt_describe(a: u64, e: u64, out: &mut [u8]) -> u64
    ensures { Returns (reading (describing a e out.old) 0) result out.new }
{
    match dci::describe(a, e, out) {
        Ok(()) => 0,
        Err(refusal) => pack(refusal),
    }
}

// Searches a list of candidates, five numbers each: `search::search`. The part of the region follows from the candidate.
#[unsafe(no_mangle)]
pub extern "C" fn spelt_search_list(n_id: u16, region: &[i32], list: &[u32], out: &mut [u8]) -> u64
    ensures { Returns (named (searching n_id region.now list.now out.old)) result out.new }
{
    match search::search(n_id, region, list, out) {
        Ok(found) => 256 * (found.candidate as u64) + pack_counted(Ok(found.noise)),
        Err(refusal) => pack(refusal),
    }
}
