// The jump over the 1,600 terms that 38.211 5.2.1 leaves out before it takes the sequence. Both registers are linear: each bit after
// the jump is the parity of the register before it under a fixed mask.
#![tactic(auto)]

mod masks;

ghost use Rattle.std.specs.Prelude.{◌≡◌, ◌<◌, ◌^◌};
ghost use Rattle.nr.specs.Scrambling.{step1, step2, after};
ghost use Rattle.jump.specs.Parities.{jumped};

// x1 after the jump from 1, where 38.211 starts it.
const X1_FROM_ONE: u32 = 0x5e485840;

// Bit i of the result is the count of the ones that mask i leaves of `s`, mod 2: the processor counts them (popcnt). For one that
// cannot, the loop from the top bit down is compiled to the parity flag; upwards it would be a count in vectors.
fn jump(masks: &[u32; 31], s: u32) -> u32
    ensures { result ≡ jumped masks.now s }
{
    let mut r: u32 = 0;
    for mask in masks.iter().rev() {
        r = r * 2 + (s & *mask).count_ones() % 2;
    }
    r
}

// x1's register 1,600 terms on. The sequence always starts it from 1, so that this state is a constant, which x2 has none
// of.
pub fn x1(s: u32) -> u32
    requires { s < 2 ^ 31 }
    ensures { result ≡ after step1 1600 s }
{
    if s == 1 {
        X1_FROM_ONE
    } else {
        jump(&masks::X1, s)
    }
}

// x2's register 1,600 terms on.
pub fn x2(s: u32) -> u32
    requires { s < 2 ^ 31 }
    ensures { result ≡ after step2 1600 s }
{
    jump(&masks::X2, s)
}
