// The successive decoder: it calls itself on both halves of a row of soft values, down to a single position.
#![tactic(auto)]

ghost use Rattle.std.specs.Prelude.{◌≡◌, ℕ, ◌+◌, ◌*◌, ◌≤◌, ◌<◌, ◌^◌, pos, length, get_or, drop};
ghost use Rattle.nr.specs.Transform.{transform};
ghost use Rattle.nr.specs.SuccessiveDecoder.{successive};
ghost use Rattle.nr.specs.Rows.{Within};
ghost use Rattle.successive_decoder.specs.Levels.{row_of, Ready};

// `work` has a row of M values at M .. 2M, for every M = 2^n at once: one array, since no memory is asked for. This makes the row of `half` values from the row of twice as
// many, which stays: value i by `node` from the values i of its halves.
fn node_row<F: Fn(usize, i32, i32) -> i32>(work: &mut [i32; 1024], half: usize, node: F)
    requires room { (length work.old ≡ 1024) × (4 * half ≤ 1024) }
    requires callable { (i : ℕ) → i < half → F.pre node i (get_or work.old (2 * half + i) (pos 0)) (get_or work.old (3 * half + i) (pos 0)) }
    ensures work_after { (i : ℕ) → i < half → F.post node i (get_or work.old (2 * half + i) (pos 0)) (get_or work.old (3 * half + i) (pos 0)) (get_or work.new (half + i) (pos 0)) }
    ensures work_unchanged { drop (2 * half) work.new ≡ drop (2 * half) work.old }
{
    // Half of all rows have one value: for them no loop is set up.
    if half == 1 {
        work[1] = node(0, work[2], work[3]);
        return;
    }
    for i in 0..half {
        work[half + i] = node(i, work[2 * half + i], work[3 * half + i]);
    }
}

// Decodes the row of 2^n values in `work`, whose longer rows stay. The decided bits go to `est` in order of position, the second
// half's into its part from M/2 on, and their code bits to `sums`, so that g needs no transform of its own.
fn decode(n: usize, work: &mut [i32; 1024], marks: &[u8], est: &mut [u8], sums: &mut [u8])
    requires { Ready n work.old marks.now est.old sums.old }
    ensures est_after { est.new ≡ successive n marks.now (row_of (2 ^ n) work.old) }
    ensures sums_after { sums.new ≡ transform n (successive n marks.now (row_of (2 ^ n) work.old)) }
    ensures work_unchanged { drop (2 ^ n) work.new ≡ drop (2 ^ n) work.old }
{
    if n == 0 {
        let x = work[1];
        let u = nodes::decision(marks[0], x);
        est[0] = u;
        sums[0] = u;
    } else {
        let half = marks.len() / 2;
        node_row(work, half, |_, a, b| nodes::check_node(a, b));
        decode(
            n - 1,
            work,
            &marks[..half],
            &mut est[..half],
            &mut sums[..half],
        );
        node_row(work, half, |i, a, b| nodes::bit_node(sums[i], a, b));
        decode(
            n - 1,
            work,
            &marks[half..],
            &mut est[half..],
            &mut sums[half..],
        );
        polar::combine(sums, half);
    }
}

// Decodes the row of 2^n values in `work`: the bits of all positions, 0 at the frozen ones, and their code word.
pub fn decode_row(n: usize, work: &mut [i32; 1024], marks: &[u8], est: &mut [u8], word: &mut [u8])
    requires n_bound { (n ≤ 9) × (length work.old ≡ 1024) × (length marks.now ≡ 2 ^ n) × (length est.old ≡ 2 ^ n) × (length word.old ≡ 2 ^ n) }
    requires within { Within (2 ^ 20) (row_of (2 ^ n) work.old) }
    ensures est_after { est.new ≡ successive n marks.now (row_of (2 ^ n) work.old) }
    ensures word_after { word.new ≡ transform n (successive n marks.now (row_of (2 ^ n) work.old)) }
{
    decode(n, work, marks, est, word);
}
