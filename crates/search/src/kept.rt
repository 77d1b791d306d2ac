// What a search keeps between candidates: the code, and the terms of the scrambling sequence.

ghost use Rattle.std.specs.Prelude.{◌≡◌, ◌≤◌, length, take};
ghost use Rattle.nr.specs.Numbers.{K};
ghost use Rattle.nr.specs.Construction.{layout};
ghost use Rattle.nr.specs.Scrambling.{gold};
ghost use Rattle.construction.specs.Shapes.{Lays};

use nr::{Code, Sizes};
use scrambling::Seed;

// The code for accepted sizes.
#[derive(Drop)]
pub struct Kept {
    pub sizes: Sizes,
    pub code: Code,
    pub ghost lays: { Lays (layout (K sizes.a) sizes.e) code },
}

impl Kept {
    // The code for accepted sizes, made.
    fn made(sizes: Sizes) -> Kept
        ensures { result.sizes ≡ sizes }
    {
        Kept {
            sizes,
            code: construction::construct(sizes),
        }
    }
}

// The code for accepted sizes: kept, where that before is for the same.
pub fn code_for(before: &mut Option<Kept>, sizes: Sizes) -> &Kept
    ensures { (result.now.sizes.a ≡ sizes.a) × (result.now.sizes.e ≡ sizes.e) }
{
    match before {
        Some(kept) => {
            if kept.sizes != sizes {
                *kept = Kept::made(sizes);
            }
            kept
        }
        None => before.insert(Kept::made(sizes)),
    }
}

// The first E terms from a start, made at the front of a row.
fn make(start: Seed, e: usize, row: &mut [u8; 1728])
    requires { e ≤ 1728 }
    ensures { take e row.new ≡ gold start.bits e }
{
    scrambling::sequence(start, &mut row[..e]);
}

// The first `ready` terms of the sequence from `start`, at the front of a row.
#[derive(Drop)]
pub struct Terms {
    pub start: Seed,
    pub ready: usize,
    pub row: [u8; 1728],
    pub ghost within: { ready ≤ 1728 },
    pub ghost terms: { take ready row ≡ gold start.bits ready },
}

impl Terms {
    // None yet.
    #[tactic(auto, unfolding(nr::specs::Scrambling::gold, nr::specs::Scrambling::terms))]
    pub fn none() -> Terms
        ensures { result.ready ≡ 0 }
    {
        Terms {
            start: Seed { bits: 0 },
            ready: 0,
            row: [0u8; 1728],
        }
    }

    // At least E terms from a start: those that stand there are kept where the start is the same.
    pub fn extend(&mut self, start: Seed, e: usize)
        requires { e ≤ 1728 }
        ensures { (self.new.start ≡ start) × (e ≤ self.new.ready) }
    {
        if self.start == start && e <= self.ready {
            return;
        }
        make(start, e, &mut self.row);
        self.start = start;
        self.ready = e;
    }

    // The first E of them.
    pub fn first(&self, e: usize) -> &[u8]
        requires { e ≤ self.now.ready }
        ensures { result.now ≡ gold self.now.start.bits e }
    {
        &self.row[..e]
    }
}
