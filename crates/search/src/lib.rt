// The search of a handset's candidates in a region of soft values: the first that decodes.
#![tactic(auto)]

mod kept;

ghost use Rattle.std.specs.Prelude.{◌≡◌, ◌+◌, ◌*◌, true, length, IfOk, IfErr};
ghost use Rattle.nr.specs.Numbers.{K};
ghost use Rattle.nr.specs.Construction.{layout};
ghost use Rattle.nr.specs.Searching.{numbers_of, sixteen_bits, search_refusal, searching, start_of};
ghost use Rattle.construction.specs.Shapes.{Lays};
ghost use Rattle.dci.specs.Judged.{told};
ghost use Rattle.search.specs.Tries.{Tries, attempted, named};

use kept::{Kept, Terms};
use nr::{Candidate, Code, Numbers, Refusal};

// What a search names: the candidate's place in the list, its stretch of the region, and its noise count.
#[derive(Drop)]
pub struct Found<'a> {
    pub candidate: usize,
    pub stretch: &'a [i32],
    pub noise: u32,
}

// The numbers that a candidate is decoded under.
fn numbers_of(n_id: u16, c: Candidate) -> Numbers
    requires { sixteen_bits c ≡ true }
    ensures { result ≡ numbers_of n_id c }
{
    Numbers {
        a: u64::from(c.a),
        e: 108 * u64::from(c.level),
        rnti: c.rnti as u16,
        n_id,
        n_rnti: c.n_rnti as u16,
    }
}

// A candidate's row decoded into the front of the payload buffer.
fn attempt(
    numbers: Numbers,
    code: &Code,
    terms: &Terms,
    row: &[i32],
    out: &mut [u8],
) -> Result<u32, Refusal>
    requires tries { Tries numbers terms.now row.now out.old }
    requires lays { Lays (layout (K numbers.a) numbers.e) code.now }
    ensures { told result out.new ≡ attempted numbers row.now out.old }
{
    let a = numbers.a as usize;
    dci::accept(numbers, code, terms.first(row.len()), row, &mut out[..a])
}

// The search behind its checks. A function of its own, so that a call that is refused sets up nothing for it.
#[inline(never)]
fn among<'a>(
    n_id: u16,
    region: &'a [i32],
    list: &[u32],
    out: &mut [u8],
) -> Result<Found<'a>, Refusal>
    requires { 0 ≡ search_refusal (length region.now) (length list.now) (length out.old) }
    ensures is { named result out.new ≡ searching n_id region.now list.now out.old }
    ensures own { IfOk result (λ f. f.stretch.ref_ptr ≡ (region.entry.ref_ptr.0, start_of list.now (searching n_id region.now list.now out.old) * 4 + region.entry.ref_ptr.1)) }
    ensures own_refused { IfErr result (λ _. start_of list.now (searching n_id region.now list.now out.old) ≡ 0) }
{
    let mut terms = Terms::none();
    let mut before = None;
    'candidates: for i in 0..list.len() / 5 {
        let c = candidates::candidate_at(list, i);
        let Some(sizes) = candidates::sizes_of(region.len() / 108, c) else {
            continue;
        };
        let start = 108 * (c.first as usize);
        let row = &region[start..start + 108 * (c.level as usize)];
        'values: for x in row {
            if checks::is_outside(*x, -127, 127) {
                continue 'candidates;
            }
        }
        let numbers = numbers_of(n_id, c);
        let made = kept::code_for(&mut before, sizes);
        terms.extend(scrambling::c_init(numbers), row.len());
        if let Ok(noise) = attempt(numbers, &made.code, &terms, row, out) {
            return Ok(Found {
                candidate: i,
                stretch: row,
                noise,
            });
        }
    }
    Err(Refusal::NoCandidate)
}

// Searches the candidates, five numbers each, in a region of CCEs of 108 soft values. Where one decodes it is named, with its place in
// the list, its stretch of the region and its noise count, and its payload stands at the start of the output; else the search is
// refused with 4 (lengths of the region and the list), 5 (length of the output) or 8 (none decodes), and the output is as it was. The
// stretch is the caller's own: it stands where it does in the region, whose values have 4 bytes. With a refusal there is none; the empty
// one that `named` reads there starts where the region does.
pub fn search<'a>(
    n_id: u16,
    region: &'a [i32],
    list: &[u32],
    out: &mut [u8],
) -> Result<Found<'a>, Refusal>
    ensures is { named result out.new ≡ searching n_id region.now list.now out.old }
    ensures own { IfOk result (λ f. f.stretch.ref_ptr ≡ (region.entry.ref_ptr.0, start_of list.now (searching n_id region.now list.now out.old) * 4 + region.entry.ref_ptr.1)) }
    ensures own_refused { IfErr result (λ _. start_of list.now (searching n_id region.now list.now out.old) ≡ 0) }
{
    candidates::check_sizes(region.len(), list.len(), out.len())?;
    among(n_id, region, list, out)
}
