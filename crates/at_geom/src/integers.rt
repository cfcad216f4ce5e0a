//! Differences and products of coordinates that fit their types.

ghost use Rattle.std.specs.Prelude.{◌≡◌, ◌≤◌, ◌-ℤ◌, ◌*ℤ◌, nat_abs};

/// The difference of two coordinates, at most 6·10^14 in size.
pub(crate) fn difference(a: i64, b: i64) -> i64
    requires a_in_range { nat_abs a ≤ 300000000000000 }
    requires b_in_range { nat_abs b ≤ 300000000000000 }
    ensures { result ≡ a -ℤ b }
{
    a - b
}

/// The product of two coordinates or differences, at most 3.6·10^29 in size.
pub(crate) fn product(a: i64, b: i64) -> i128
    requires a_is_small { nat_abs a ≤ 600000000000000 }
    requires b_is_small { nat_abs b ≤ 600000000000000 }
    ensures value { result ≡ a *ℤ b }
    ensures bounded { nat_abs result ≤ 360000000000000000000000000000 }
{
    a as i128 * b as i128
}
