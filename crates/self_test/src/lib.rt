// The self-test: a payload is coded and its noiseless row decoded. Promise 3, run.
#![tactic(auto)]

ghost use Rattle.std.specs.Prelude.{◌≡◌, ◌≤◌, length};
ghost use Rattle.nr.specs.Loopback.{looped, Loops};
ghost use Rattle.nr.specs.Rows.{Within};
ghost use Rattle.dci.specs.Judged.{told};
ghost use Rattle.self_test.specs.Loops.{signed, found};

use nr::{Numbers, Refusal};

// A noiseless row for the payload: each coded bit with its sign and the caller's strength.
fn sign(numbers: Numbers, payload: &[u8], strengths: &[i32], soft: &mut [i32])
    requires { (length strengths.now ≡ numbers.e) × (length soft.old ≡ numbers.e) × (numbers.e ≤ 1728) × Within 127 strengths.now }
    ensures { soft.new ≡ signed numbers payload.now strengths.now }
{
    let mut room = [0u8; 1728];
    let sent = &mut room[..strengths.len()];
    let _ = dci::encode(numbers, payload, sent);
    scrambling::negate(sent, strengths, soft);
}

// Codes the payload and decodes its noiseless row: promise 3, run.
fn through(
    numbers: Numbers,
    payload: &[u8],
    strengths: &[i32],
    out: &mut [u8],
) -> Result<u32, Refusal>
    requires { Loops numbers payload.now strengths.now out.old }
    ensures { told result out.new ≡ found payload.now }
{
    let mut room = [0i32; 1728];
    let soft = &mut room[..strengths.len()];
    sign(numbers, payload, strengths, soft);
    dci::decode(numbers, soft, out)
}

// The self-test: codes the payload, gives each coded bit its sign and the caller's strength, and decodes that row. It answers 0
// with the payload in the output, or the first number of 1 to 6 that applies; the noise count is 0. Entries are counted through the
// payload and then the strengths, which are 1 to 127.
pub fn loopback(
    numbers: Numbers,
    payload: &[u8],
    strengths: &[i32],
    out: &mut [u8],
) -> Result<u32, Refusal>
    ensures { told result out.new ≡ looped numbers payload.now strengths.now out.old }
{
    let a = numbers.a;
    let e = numbers.e;
    checks::check_sizes(a, e, payload.len(), a, 0, 0)?;
    checks::check_sizes(a, e, strengths.len(), e, out.len(), a)?;
    if let Some(byte) = checks::first_bad(payload) {
        return Err(Refusal::BadEntry(byte));
    }
    if let Some(strength) = checks::first_outside(strengths, 1, 127) {
        return Err(Refusal::BadEntry(payload.len() + strength));
    }
    through(numbers, payload, strengths, out)
}
