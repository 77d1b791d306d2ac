// N, the kind of rate matching and what each position is for (38.212 5.3.1, 5.4.1), worked out from A and E.
#![tactic(auto)]

mod table;

ghost use Rattle.std.specs.Prelude.{◌≡◌, ℕ, ◌≤◌, ◌^◌, length, replicate, map};
ghost use Rattle.nr.specs.Rows.{count, keep, last};
ghost use Rattle.nr.specs.Numbers.{K};
ghost use Rattle.nr.specs.Reliability.{reliability};
ghost use Rattle.nr.specs.Construction.{exponent, rate_matching, layout};
ghost use Rattle.nr.specs.SuccessiveDecoder.{marks};
ghost use Rattle.nr.specs.Describing.{barred_as, roles};
ghost use Rattle.admission.specs.Window.{usable, admits};
ghost use Rattle.construction.specs.Shapes.{marked, padded, Lays, role_of};

use admission::Window;
use nr::{Code, CodeLength, RateMatching, Sizes};
use table::RELIABILITY;

// The code for A and E: K, N, the kind, and the window of its positions.
#[derive(Clone, Copy)]
pub struct Shape {
    pub sizes: Sizes,
    pub k: usize,
    pub length: CodeLength,
    pub kind: RateMatching,
    pub window: Window,
    pub ghost k_is: { k ≡ K sizes.a },
    pub ghost n_is: { length.n ≡ exponent sizes.e },
    pub ghost kind_is: { kind ≡ rate_matching (K sizes.a) sizes.e },
    pub ghost window_is: { (p : ℕ) → admits length.n window p ≡ usable kind (2 ^ length.n) sizes.e p },
}

// The shape of the code for A and E.
fn shape_of(sizes: Sizes) -> Shape
    ensures { result.sizes ≡ sizes }
{
    let k = sizes.a as usize + 24;
    let e = sizes.e as usize;
    let length = admission::exponent(e);
    let len = length.bits();
    let kind = admission::rate_matching(k, e, len);
    let window = admission::window_of(kind, len, e);
    Shape {
        sizes,
        k,
        length,
        kind,
        window,
    }
}

impl Shape {
    // Marks the K most reliable of the positions that the window admits. K is above 0, so what is left is tested where it falls.
    fn mark(self, row: &mut [u8; 512])
        requires { row.old ≡ replicate 512 0 }
        ensures { row.new ≡ marks 512 (last self.k (keep (admits self.length.n self.window) reliability)) }
    {
        let mut left = self.k;
        for position in RELIABILITY.iter().rev() {
            let p = usize::from(*position);
            if self.window.admits(self.length, p) {
                row[p] = 1;
                left -= 1;
                if left == 0 {
                    return;
                }
            }
        }
    }

    // What a position is for, as the byte that C reads: 4 past the row's end, `bar` outside the window, else its mark.
    fn role(self, bar: u8, row: &[u8], p: usize) -> u8
        ensures { result ≡ role_of self.length.n self.window bar row.now p }
    {
        if row.len() <= p {
            return 4;
        }
        if self.window.admits(self.length, p) {
            row[p]
        } else {
            bar
        }
    }

    // What each position is for.
    fn fill(self, bar: u8, row: &[u8], out: &mut [u8])
        ensures { out.new ≡ map (role_of self.length.n self.window bar row.now) (count 0 (length out.old)) }
    {
        for (p, role) in out.iter_mut().enumerate() {
            *role = self.role(bar, row, p);
        }
    }
}

// The marked positions, ascending, with 0 past them.
fn collect(row: &[u8]) -> [u16; 164]
    requires { (length row.now ≤ 512) × (length (marked row.now) ≤ 164) }
    ensures { result ≡ padded (marked row.now) }
{
    let mut positions = [0u16; 164];
    let mut j = 0;
    for (p, mark) in row.iter().enumerate() {
        if *mark != 0 {
            positions[j] = p as u16;
            j += 1;
        }
    }
    positions
}

// The code for A and E.
pub fn construct(sizes: Sizes) -> Code
    ensures { Lays (layout (K sizes.a) sizes.e) result }
{
    let shape = shape_of(sizes);
    let mut row = [0u8; 512];
    shape.mark(&mut row);
    let positions = collect(&row[..shape.length.bits()]);
    Code {
        length: shape.length,
        kind: shape.kind,
        k: shape.k,
        positions,
    }
}

// A barred position as the byte that C reads: 2 punctured, 3 shortened.
#[tactic(auto, unfolding(nr::specs::Describing::barred_as))]
fn barred_as(kind: RateMatching) -> u8
    ensures { result ≡ barred_as kind }
{
    match kind {
        RateMatching::Repetition => 2,
        RateMatching::Puncturing => 2,
        RateMatching::Shortening => 3,
    }
}

// What each position of the code for A and E is for.
pub fn describe(sizes: Sizes, out: &mut [u8])
    requires { length out.old ≡ 512 }
    ensures { out.new ≡ roles (K sizes.a) sizes.e }
{
    let shape = shape_of(sizes);
    let bar = barred_as(shape.kind);
    let mut row = [0u8; 512];
    shape.mark(&mut row);
    shape.fill(bar, &row[..shape.length.bits()], out);
}
