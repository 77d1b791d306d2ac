// What the successive decoder works out from one or two soft values: f, g and the decision of a single position.
#![tactic(auto)]

ghost use Rattle.std.specs.Prelude.{◌≡◌};
ghost use Rattle.nr.specs.SuccessiveDecoder.{f, g, decide};
ghost use Rattle.nodes.specs.Small.{Small};

// f: the smaller magnitude with the product of the signs.
pub fn check_node(a: i32, b: i32) -> i32
    requires { Small a × Small b }
    ensures { result ≡ f a b }
{
    let s = a.abs().min(b.abs());
    if (a < 0) == (b < 0) { s } else { -s }
}

// g: b + a for the bit 0, b - a for the bit 1.
pub fn bit_node(v: u8, a: i32, b: i32) -> i32
    requires { Small a × Small b }
    ensures { result ≡ g v a b }
{
    if v == 0 { b + a } else { b - a }
}

// The bit of a single position: 0 if it is frozen (mark 0), else by the sign.
pub fn decision(mark: u8, x: i32) -> u8
    ensures { result ≡ decide mark x }
{
    u8::from(mark != 0 && x < 0)
}
