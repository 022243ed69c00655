// A soft value in 32 bits: what a bit costs at it, and how two of them become one.
ghost use Rattle.std.specs.Prelude.{◌≡◌, ◌^◌, ◌≤◌, unsigned_abs};
ghost use Rattle.cost.specs.Values.{contradicts, f, g};

// What a bit costs at its decision value, and what a code bit contradicts in an LLR.
pub fn contradiction(value: i32, bit: bool) -> u32
    ensures { result ≡ contradicts value bit }
{
    if (bit && value > 0) || (!bit && value < 0) {
        value.unsigned_abs()
    } else {
        0
    }
}

// A value of the first half, from the pair above it.
pub(crate) fn first_value(a: i32, b: i32) -> i32
    requires a_bounded { unsigned_abs a ≤ 2 ^ 29 }
    requires b_bounded { unsigned_abs b ≤ 2 ^ 29 }
    ensures { result ≡ f a b }
{
    let smaller = a.abs().min(b.abs());
    if (a < 0) == (b < 0) {
        smaller
    } else {
        -smaller
    }
}

// A value of the second half, from the pair above it and the first half's code bit.
pub(crate) fn second_value(a: i32, b: i32, bit: bool) -> i32
    requires a_bounded { unsigned_abs a ≤ 2 ^ 29 }
    requires b_bounded { unsigned_abs b ≤ 2 ^ 29 }
    ensures { result ≡ g a b bit }
{
    if bit { b - a } else { b + a }
}
