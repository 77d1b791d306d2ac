// A code word received: from E soft values to the row of payload and parity, and the code word that was decided, for a code and the
// sequence that the row was scrambled with.
#![tactic(auto)]

ghost use Rattle.std.specs.Prelude.{◌≡◌, ◌≤◌, ◌^◌, length, replicate};
ghost use Rattle.nr.specs.Rows.{entries, Within};
ghost use Rattle.nr.specs.Transform.{transform};
ghost use Rattle.nr.specs.SuccessiveDecoder.{descramble, code_row, successive, marks};
ghost use Rattle.nr.specs.Decoding.{decided, masked_row};
ghost use Rattle.nr.specs.RateMatching.{Fits};
ghost use Rattle.nr.specs.Codes.{Positions};
ghost use Rattle.nr.specs.Layouts.{layout_of};
ghost use Rattle.successive_decoder.specs.Levels.{row_of};

use nr::Code;

// A 1 at each information position of a row that is 0, as the definition's `marks` has them.
fn mark(positions: &[u16], row: &mut [u8])
    requires { Positions (length row.old) positions.now × (row.old ≡ replicate (length row.old) 0) }
    ensures { row.new ≡ marks (length row.old) positions.now }
{
    let ones = [1u8; 164];
    polar::place(&ones[..positions.len()], positions, row);
}

// The bits that stand at the information positions.
fn pick(row: &[u8], positions: &[u16], bits: &mut [u8])
    requires { Positions (length row.now) positions.now × (length bits.old ≡ length positions.now) }
    ensures { bits.new ≡ entries positions.now row.now }
{
    for (i, bit) in bits.iter_mut().enumerate() {
        let p = usize::from(positions[i]);
        *bit = row[p];
    }
}

// The N values by code position: scrambling and rate matching undone.
fn code_row(code: &Code, sequence: &[u8], soft: &[i32], row: &mut [i32])
    requires fits { Fits code.now.kind (2 ^ code.now.length.n) (length soft.now) × (length soft.now ≤ 1728) × Within 127 soft.now }
    requires lengths { (length sequence.now ≡ length soft.now) × (length row.old ≡ 2 ^ code.now.length.n) }
    ensures { row.new ≡ code_row code.now.kind (2 ^ code.now.length.n) (length soft.now) (descramble sequence.now soft.now) }
{
    let e = soft.len();
    let mut sent = [0i32; 1728];
    scrambling::negate(sequence, soft, &mut sent[..e]);
    rate_matching::gather(code.kind, code.length, &sent[..e], row);
}

// The decided bits of the N values that stand in `work` as the decoder has them, at N .. 2N, and their code word.
fn decide_row(code: &Code, work: &mut [i32; 1024], est: &mut [u8], word: &mut [u8])
    requires lengths { (length est.old ≡ 2 ^ code.now.length.n) × (length word.old ≡ 2 ^ code.now.length.n) }
    requires work { Within (2 ^ 20) (row_of (2 ^ code.now.length.n) work.old) }
    ensures est_after { est.new ≡ successive code.now.length.n (marks (2 ^ code.now.length.n) (layout_of code.now).positions) (row_of (2 ^ code.now.length.n) work.old) }
    ensures word_after { word.new ≡ transform code.now.length.n (successive code.now.length.n (marks (2 ^ code.now.length.n) (layout_of code.now).positions) (row_of (2 ^ code.now.length.n) work.old)) }
{
    let len = est.len();
    let mut chosen = [0u8; 512];
    mark(code.information(), &mut chosen[..len]);
    successive_decoder::decode_row(code.length.n, work, &chosen[..len], est, word);
}

// The decided bits of all N positions, and their code word.
fn decide(code: &Code, sequence: &[u8], soft: &[i32], est: &mut [u8], word: &mut [u8])
    requires fits { Fits code.now.kind (2 ^ code.now.length.n) (length soft.now) × (length soft.now ≤ 1728) × Within 127 soft.now }
    requires lengths { (length sequence.now ≡ length soft.now) × (length est.old ≡ 2 ^ code.now.length.n) × (length word.old ≡ 2 ^ code.now.length.n) }
    ensures est_after { est.new ≡ decided (layout_of code.now) (length soft.now) sequence.now soft.now }
    ensures word_after { word.new ≡ transform code.now.length.n (decided (layout_of code.now) (length soft.now) sequence.now soft.now) }
{
    let len = est.len();
    let mut work = [0i32; 1024];
    code_row(code, sequence, soft, &mut work[len..2 * len]);
    decide_row(code, &mut work, est, word);
}

// The row of payload and parity, the interleaver undone and the RNTI still on it; and the code word of all that was decided.
pub fn receive(code: &Code, sequence: &[u8], soft: &[i32], row: &mut [u8], word: &mut [u8])
    requires fits { Fits code.now.kind (2 ^ code.now.length.n) (length soft.now) × (length soft.now ≤ 1728) × Within 127 soft.now }
    requires lengths { (length sequence.now ≡ length soft.now) × (length row.old ≡ code.now.k) × (length word.old ≡ 2 ^ code.now.length.n) }
    ensures row_after { row.new ≡ masked_row (layout_of code.now) (length soft.now) sequence.now soft.now }
    ensures word_after { word.new ≡ transform code.now.length.n (decided (layout_of code.now) (length soft.now) sequence.now soft.now) }
{
    let len = word.len();
    let mut est = [0u8; 512];
    decide(code, sequence, soft, &mut est[..len], word);
    let mut bits = [0u8; 164];
    pick(&est[..len], code.information(), &mut bits[..code.k]);
    interleaver::deinterleave(&bits[..code.k], row);
}
