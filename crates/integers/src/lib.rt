// The operations that signed code shares: exact sums, multiples and magnitudes, and half of a number rounded down.
#![tactic(auto)]

ghost use Rattle.std.specs.Prelude.{◌≡◌, pos, nat_abs, ◌+ℤ◌, ◌*ℤ◌};
ghost use Rattle.integers.specs.Minimum.{half_ℤ};

// The sum of two numbers, which always fits.
pub fn sum(a: i32, b: i32) -> i64
    ensures { result ≡ a +ℤ b }
{
    (a as i64) + (b as i64)
}

// A multiple of a number, which always fits.
pub fn times(n: u32, a: i32) -> i64
    ensures { result ≡ pos n *ℤ a }
{
    (n as i64) * (a as i64)
}

// Half of a number, rounded down: a division would round toward zero.
pub fn half(a: i64) -> i64
    ensures { result ≡ half_ℤ a }
{
    a >> 1
}

// How far a number is from 0.
pub fn magnitude(a: i32) -> u64
    ensures { result ≡ nat_abs a }
{
    a.unsigned_abs() as u64
}
