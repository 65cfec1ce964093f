// The methods of Rust's f64 that the port uses, as Rust has them at NaN, -0 and the infinities; bit
// patterns; the constants.
#![tactic(auto)]

ghost use Rattle.std.specs.Prelude.{◌≡◌};
ghost use Rattle.std.specs.Float.{binary64};
ghost use Rattle.std.specs.Float.Ieee.{is_nan, of_bits, to_bits};
ghost use Rattle.std.specs.Float.Ieee.Scale.{finite};
ghost use Rattle.float.specs.Methods.{abs, max_num, min_num, signum, clamp, finite_positive};

use std::num::{f64_from_bits_with_nan, f64_to_bits_with_nan};

// 2^-52, the distance from 1 to the next double, and its square root, 2^-26.
pub const EPSILON: f64 = 2.220446049250313e-16;

pub const SQRT_EPSILON: f64 = 1.4901161193847656e-8;

// The cube root of 2^-52, rounded to nearest.
pub const CBRT_EPSILON: f64 = 6.0554544523933395e-6;

pub fn is_nan(x: f64) -> bool
    ensures { result ≡ is_nan x }
{
    x.is_nan()
}

// x - x is 0 or a NaN. std's is_finite asks whether it is 0, with a jump more for a NaN: a vector's test
// then takes 1.4 times as long.
#[tactic(auto, using(crate::proofs::Laws::finite_is))]
pub fn is_finite(x: f64) -> bool
    ensures { result ≡ finite x }
{
    x - x >= 0.0
}

// Whether x is above 0 and finite.
#[tactic(auto, unfolding(crate::specs::Methods::finite_positive))]
pub fn is_finite_positive(x: f64) -> bool
    ensures { result ≡ finite_positive x }
{
    x > 0.0 && is_finite(x)
}

// 0 - x is exact, and +0 where x is a zero of either sign. std's abs tests for a zero, and takes 1.17
// times as long in a loop.
#[tactic(auto, using(crate::proofs::Negatives::abs_above, crate::proofs::Negatives::abs_below))]
pub fn abs(x: f64) -> f64
    ensures { result ≡ abs x }
{
    let negative = 0.0 - x;
    if negative < x { x } else { negative }
}

// The number, where one of the two is a NaN, and the first of two that are equal, as of two zeros: std's
// does not say which. With `||` it takes 1.4 times as long. min is the other comparison: C has both.
pub fn max(a: f64, b: f64) -> f64
    ensures { result ≡ max_num a b }
{
    if a.is_nan() | (a < b) { b } else { a }
}

pub fn min(a: f64, b: f64) -> f64
    ensures { result ≡ min_num a b }
{
    if a.is_nan() | (a > b) { b } else { a }
}

// Keeps a NaN. Where lo is above hi or one of them is a NaN, Rust's stops the program; this one goes
// by the same two tests.
pub fn clamp(x: f64, lo: f64, hi: f64) -> f64
    ensures { result ≡ clamp x lo hi }
{
    if x < lo {
        return lo;
    }
    if x > hi {
        return hi;
    }
    x
}

#[tactic(auto, using(crate::proofs::Laws::signum_is))]
pub fn signum(x: f64) -> f64
    ensures { result ≡ signum x }
{
    x.signum()
}

// f64::from_bits and f64::to_bits, made total: all NaNs are one.
pub fn of_bits(b: u64) -> f64
    ensures { result ≡ of_bits binary64 b }
{
    f64_from_bits_with_nan(b)
}

pub fn bits_of(x: f64) -> u64
    ensures { result ≡ to_bits binary64 x }
{
    f64_to_bits_with_nan(x)
}
