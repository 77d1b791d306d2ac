// A code word sent: from a payload to E scrambled bits, for a code and a start of the scrambler.
#![tactic(auto)]

ghost use Rattle.std.specs.Prelude.{◌≡◌, ◌+◌, ◌≤◌, ◌^◌, length, replicate};
ghost use Rattle.nr.specs.Rows.{Bits};
ghost use Rattle.nr.specs.Parity.{attach, mask_rnti};
ghost use Rattle.nr.specs.Interleaver.{interleave};
ghost use Rattle.nr.specs.Coding.{code_word, coded};
ghost use Rattle.nr.specs.Layouts.{layout_of};
ghost use Rattle.nr.specs.RateMatching.{Fits};

use nr::Code;
use scrambling::Seed;

// The bits for the information positions: the payload with its parity, the RNTI added, interleaved.
fn information_bits(payload: &[u8], rnti: u16, bits: &mut [u8])
    requires { (length bits.old ≡ length payload.now + 24) × (length bits.old ≤ 164) × Bits payload.now }
    ensures { bits.new ≡ interleave (mask_rnti rnti (attach payload.now)) }
{
    let k = bits.len();
    let mut row = [0u8; 164];
    parity::attach(payload, rnti, &mut row[..k]);
    interleaver::interleave(&row[..k], bits);
}

// The code word of a payload, in a row of N that is 0.
fn code_word(code: &Code, rnti: u16, payload: &[u8], d: &mut [u8])
    requires payload { (length payload.now + 24 ≡ code.now.k) × Bits payload.now }
    requires zero { d.old ≡ replicate (2 ^ code.now.length.n) 0 }
    ensures { d.new ≡ code_word (layout_of code.now) rnti payload.now }
{
    let mut bits = [0u8; 164];
    information_bits(payload, rnti, &mut bits[..code.k]);
    polar::place(&bits[..code.k], code.information(), d);
    polar::transform(code.length.n, d);
}

// The scrambled bits of a payload, as many as the output holds.
pub fn send(code: &Code, rnti: u16, start: Seed, payload: &[u8], out: &mut [u8])
    requires payload { (length payload.now + 24 ≡ code.now.k) × Bits payload.now }
    requires fits { Fits code.now.kind (2 ^ code.now.length.n) (length out.old) }
    ensures { out.new ≡ coded (layout_of code.now) (length out.old) rnti start.bits payload.now }
{
    let len = code.length.bits();
    let mut d = [0u8; 512];
    code_word(code, rnti, payload, &mut d[..len]);
    rate_matching::select(code.kind, code.length, &d[..len], out);
    scrambling::scramble(start, out);
}
