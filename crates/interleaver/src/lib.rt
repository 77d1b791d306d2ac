// The input interleaver (38.212 5.3.1.1). Its loops are no chains of iterators (filter_map, enumerate), which take a third longer.
#![tactic(auto)]

mod table;

ghost use Rattle.std.specs.Prelude.{◌≡◌, ◌≤◌, length};
ghost use Rattle.nr.specs.Interleaver.{interleave, deinterleave};

// The row of at most 164 bits, interleaved: output k is its bit at the k-th of the table's entries that are at least 164 - K, less 164 - K.
pub fn interleave(row: &[u8], out: &mut [u8])
    requires { (length row.now ≤ 164) × (length out.old ≡ length row.now) }
    ensures { out.new ≡ interleave row.now }
{
    let h = 164 - row.len();
    let mut k = 0;
    for entry in &table::INTERLEAVER {
        let x = usize::from(*entry);
        if h <= x {
            out[k] = row[x - h];
            k += 1;
        }
    }
}

// And back, to the order before: the row's bit j goes to the j-th of these entries, less 164 - K. A loop of its own: this one keeps what
// stands at places, and that above a front.
pub fn deinterleave(row: &[u8], out: &mut [u8])
    requires { (length row.now ≤ 164) × (length out.old ≡ length row.now) }
    ensures { out.new ≡ deinterleave row.now }
{
    let least = 164 - row.len();
    let mut j = 0;
    for place in &table::INTERLEAVER {
        let x = usize::from(*place);
        if least <= x {
            out[x - least] = row[j];
            j += 1;
        }
    }
}
