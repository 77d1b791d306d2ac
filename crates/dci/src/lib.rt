// The downlink control message: from payload bits to E scrambled bits, and from E soft values back to the payload.
#![tactic(auto)]

ghost use Rattle.std.specs.Prelude.{◌≡◌, length};
ghost use Rattle.nr.specs.Rows.{Bits, Within};
ghost use Rattle.nr.specs.Numbers.{K};
ghost use Rattle.nr.specs.Answer.{refusal, given};
ghost use Rattle.nr.specs.Construction.{layout};
ghost use Rattle.nr.specs.Scrambling.{gold, c_init};
ghost use Rattle.nr.specs.Coding.{coded, coding};
ghost use Rattle.nr.specs.Decoding.{decoding};
ghost use Rattle.nr.specs.Describing.{describing};
ghost use Rattle.construction.specs.Shapes.{Lays};
ghost use Rattle.dci.specs.Judged.{told, judged};

use nr::{Code, Numbers, Refusal, Sizes};

// The E scrambled bits of a payload of A bits. A function of its own, so that a call that is refused sets up nothing for it.
#[inline(never)]
fn write(numbers: Numbers, sizes: Sizes, payload: &[u8], out: &mut [u8])
    requires sizes { (sizes.a ≡ numbers.a) × (sizes.e ≡ numbers.e) }
    requires fits { (length payload.now ≡ numbers.a) × (length out.old ≡ numbers.e) × Bits payload.now }
    ensures { out.new ≡ coded (layout (K numbers.a) numbers.e) numbers.e numbers.rnti (c_init numbers) payload.now }
{
    let code = construction::construct(sizes);
    let start = scrambling::c_init(numbers);
    sender::send(&code, numbers.rnti, start, payload, out);
}

// Codes a payload of A bits into E bits, or refuses with the first of 1 to 6 that applies and leaves the output as it is.
pub fn encode(numbers: Numbers, payload: &[u8], out: &mut [u8]) -> Result<(), Refusal>
    ensures { given result out.new ≡ coding numbers payload.now out.old }
{
    let a = numbers.a;
    let e = numbers.e;
    let sizes = checks::check_sizes(a, e, payload.len(), a, out.len(), e)?;
    if let Some(place) = checks::first_bad(payload) {
        return Err(Refusal::BadEntry(place));
    }
    write(numbers, sizes, payload, out);
    Ok(())
}

// The payload that the soft values hold, if its parity matches, and as the answer how noisy they are. The caller has made every check,
// the code and the sequence: one with many rows makes them once.
pub fn accept(
    numbers: Numbers,
    code: &Code,
    sequence: &[u8],
    soft: &[i32],
    out: &mut [u8],
) -> Result<u32, Refusal>
    requires e_value { (refusal numbers.a numbers.e ≡ 0) × (length soft.now ≡ numbers.e) × (length out.old ≡ numbers.a) × Within 127 soft.now }
    requires lays { Lays (layout (K numbers.a) numbers.e) code.now × (sequence.now ≡ gold (c_init numbers) numbers.e) }
    ensures { told result out.new ≡ judged numbers soft.now out.old }
{
    let size = out.len();
    let len = code.length.bits();
    let mut row = [0u8; 164];
    let mut word = [0u8; 512];
    receiver::receive(code, sequence, soft, &mut row[..code.k], &mut word[..len]);
    let matched = parity::matches(&row[..code.k], numbers.rnti);
    if !matched {
        return Err(Refusal::ParityMismatch);
    }
    rows::copy(&row[..size], out);
    // the decided code word is that of the payload, so that nothing is coded again
    Ok(noise::count(code.kind, code.length, &word[..len], sequence, soft))
}

// The same, with a code and a sequence of its own. A function of its own for the same reason as `write`.
#[inline(never)]
fn fresh(numbers: Numbers, sizes: Sizes, soft: &[i32], out: &mut [u8]) -> Result<u32, Refusal>
    requires sizes { (sizes.a ≡ numbers.a) × (sizes.e ≡ numbers.e) }
    requires fits { (length soft.now ≡ numbers.e) × (length out.old ≡ numbers.a) × Within 127 soft.now }
    ensures { told result out.new ≡ judged numbers soft.now out.old }
{
    let code = construction::construct(sizes);
    let start = scrambling::c_init(numbers);
    let mut terms = [0u8; 1728];
    scrambling::sequence(start, &mut terms[..soft.len()]);
    accept(numbers, &code, &terms[..soft.len()], soft, out)
}

// Decodes E soft values into a payload of A bits, and counts those of the wrong sign for it; or refuses with the first of 1 to 7 that
// applies and leaves the output as it is.
pub fn decode(numbers: Numbers, soft: &[i32], out: &mut [u8]) -> Result<u32, Refusal>
    ensures { told result out.new ≡ decoding numbers soft.now out.old }
{
    let a = numbers.a;
    let e = numbers.e;
    let sizes = checks::check_sizes(a, e, soft.len(), e, out.len(), a)?;
    if let Some(place) = checks::first_outside(soft, -127, 127) {
        return Err(Refusal::BadEntry(place));
    }
    fresh(numbers, sizes, soft, out)
}

// What each of the positions 0..511 of the code for A and E is for, or the first of 1, 2, 3 and 5 that applies, and the output stays as
// it is.
pub fn describe(a: u64, e: u64, out: &mut [u8]) -> Result<(), Refusal>
    ensures { given result out.new ≡ describing a e out.old }
{
    let sizes = checks::check_sizes(a, e, 0, 0, out.len(), 512)?;
    construction::describe(sizes, out);
    Ok(())
}
