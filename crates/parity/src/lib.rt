// CRC attachment and the RNTI (38.212 7.3.2). The parity register and the RNTI are numbers; shifts and masks take out their
// bits, most significant first.
#![tactic(auto)]

ghost use Rattle.std.specs.Prelude.{◌≡◌, ◌+◌, ◌-◌, ◌<◌, ◌≤◌, ◌^◌, length};
ghost use Rattle.nr.specs.Rows.{msb_first, Bits};
ghost use Rattle.nr.specs.Parity.{parity, attach, mask_rnti, parity_matches};
ghost use Rattle.parity.specs.Register.{taken, Holds};

// How many parity bits there are: p0 to p23.
const PARITY_BITS: usize = 24;

// The generator below D^24.
const GENERATOR: u32 = 0xB2B117;

// The register after the 24 ones that stand before every payload.
const AFTER_ONES: u32 = 0x32E241;

// The register takes in one more bit of the row.
fn feed(register: u32, bit: u8) -> u32
    requires { (register < 2 ^ 24) × (bit ≤ 1) }
    ensures { Holds (taken (msb_first 24 register) bit) result }
{
    let lead = ((register >> 23) ^ u32::from(bit)) & 1;
    ((register << 1) & 0xFFFFFF) ^ (lead * GENERATOR)
}

// The parity of a payload, p0 the highest of 24 bits.
fn parity(payload: &[u8]) -> u32
    requires { Bits payload.now }
    ensures { Holds (parity payload.now) result }
{
    let mut register = AFTER_ONES;
    for bit in payload {
        register = feed(register, *bit);
    }
    register
}

// The row becomes the 24 lowest bits of a word, most significant first. The loop's end is a constant, so that it is unrolled.
fn write_bits(word: u32, row: &mut [u8])
    requires { length row.old ≡ 24 }
    ensures { row.new ≡ msb_first 24 word }
{
    for i in 0..PARITY_BITS {
        row[i] = ((word >> (PARITY_BITS - 1 - i)) & 1) as u8;
    }
}

// The row c: the payload, then its parity, with the RNTI added to the last 16 bits.
pub fn attach(payload: &[u8], rnti: u16, row: &mut [u8])
    requires { (length row.old ≡ length payload.now + 24) × Bits payload.now }
    ensures { row.new ≡ mask_rnti rnti (attach payload.now) }
{
    let a = payload.len();
    rows::copy(payload, &mut row[..a]);
    write_bits(parity(payload) ^ u32::from(rnti), &mut row[a..]);
}

// The word whose 24 bits a row holds, most significant first.
fn read_bits(row: &[u8]) -> u32
    requires { (length row.now ≡ 24) × Bits row.now }
    ensures { Holds row.now result }
{
    let mut word = 0;
    for bit in row {
        word = (word << 1) + u32::from(*bit);
    }
    word
}

// Whether the last 24 bits of a row, once the RNTI is off them, are the parity of the bits before.
pub fn matches(row: &[u8], rnti: u16) -> bool
    requires { (24 ≤ length row.now) × Bits row.now }
    ensures { result ≡ parity_matches (length row.now - 24) (mask_rnti rnti row.now) }
{
    let a = row.len() - PARITY_BITS;
    let last = read_bits(&row[a..]);
    parity(&row[..a]) == (last ^ u32::from(rnti))
}
