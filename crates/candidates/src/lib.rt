// The candidates of a search: the list, where one may lie, and whether its numbers let it be tried.
#![tactic(auto)]

ghost use Rattle.std.specs.Prelude.{◌≡◌, ◌+◌, ◌*◌, ◌<◌, length, is_some, IfSome};
ghost use Rattle.nr.specs.Searching.{fits, candidate_at, sixteen_bits, whole, search_refusal};
ghost use Rattle.checks.specs.Checks.{Says};
ghost use Rattle.candidates.specs.Tryable.{tryable};

use nr::{Candidate, Refusal, Sizes};

// Whether so many entries are 0 to `most` whole groups of `size`.
fn is_whole(entries: usize, size: usize, most: usize) -> bool
    requires { 0 < size }
    ensures { result ≡ whole size most entries }
{
    entries % size == 0 && entries / size <= most
}

// Refuses the lengths of a region and a list by 4, then that of an output by 5.
#[tactic(auto, using(std::proofs::lemmas::Bool::Decides::nat_tests), unfolding(nr::specs::Answer::number, nr::specs::Answer::place_of, nr::specs::Searching::search_refusal))]
pub fn check_sizes(region: usize, list: usize, out: usize) -> Result<(), Refusal>
    ensures { Says (search_refusal region list out) result }
{
    if !is_whole(region, 108, 64) || !is_whole(list, 5, 44) {
        return Err(Refusal::InputLength);
    }
    if out != 140 {
        return Err(Refusal::OutputLength);
    }
    Ok(())
}

// Candidate i of the list, which C lends as one row with five numbers for each.
pub fn candidate_at(list: &[u32], i: usize) -> Candidate
    requires { 5 * i + 4 < length list.now }
    ensures { result ≡ candidate_at list.now i }
{
    let at = 5 * i;
    Candidate {
        first: list[at],
        level: list[at + 1],
        a: list[at + 2],
        rnti: list[at + 3],
        n_rnti: list[at + 4],
    }
}

// Whether a message may lie in `level` CCEs from CCE `first` on, in a region of so many.
pub fn is_placed(cces: usize, first: u32, level: u32) -> bool
    ensures { result ≡ fits cces first level }
{
    // the levels are those of the coded lengths
    checks::is_coded_length(108 * u64::from(level))
        && first % level == 0
        && u64::from(first) + u64::from(level) <= cces as u64
}

// Whether a candidate's RNTI and n_RNTI have 16 bits, as those of the other calls.
fn has_sixteen_bits(c: Candidate) -> bool
    ensures { result ≡ sixteen_bits c }
{
    c.rnti < 65536 && c.n_rnti < 65536
}

// The sizes A and E of a candidate whose numbers let it be tried.
#[tactic(auto, using(std::proofs::lemmas::Bool::Decides::nat_tests), unfolding(nr::specs::Answer::number, nr::specs::Answer::refusal))]
pub fn sizes_of(cces: usize, c: Candidate) -> Option<Sizes>
    ensures able { is_some result ≡ tryable cces c }
    ensures sizes { IfSome result (λ s. (s.a ≡ c.a) × (s.e ≡ 108 * c.level)) }
{
    if !is_placed(cces, c.first, c.level) || !has_sixteen_bits(c) {
        return None;
    }
    checks::check_sizes(u64::from(c.a), 108 * u64::from(c.level), 0, 0, 0, 0).ok()
}
