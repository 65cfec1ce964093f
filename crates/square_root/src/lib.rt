// The square root, rounded to nearest, by whole numbers.
#![tactic(auto)]

ghost use Rattle.std.specs.Prelude.{◌≡◌, ◌*◌, ◌^◌, ◌≤◌, ◌<◌};
ghost use Rattle.square_root.specs.Root.{root_of_units, square_root};
ghost use Rattle.square_root.specs.Nearest.{IsSquareRoot};
ghost use Rattle.square_root.specs.Steps.{IsNormalised, IsEstimate, IsAbove, IsRootRem, IsBelow, IsWholeRoot};

// 2 ^ 52: the leading digit of a normal value's significand, and the last of its exponent's field.
const LEADING: u64 = 0x0010_0000_0000_0000;

// The pattern of +∞.
const INFINITE: u64 = 0x7ff0_0000_0000_0000;

// 2 ^ 27: half the digits of a 54-digit number.
const BASE: u64 = 0x0800_0000;

#[derive(Drop)]
struct Normalised {
    m: u64,
    h: u64,
}

// m * 2 ^ k with m's leading digit moved to the 53rd or 54th place, so that the exponent left is
// even: h is half of it.
fn normalise(m: u64, k: u64) -> Normalised
    requires { (0 < m) × (m < 2 ^ 53) × (k < 2046) }
    ensures { IsNormalised m k result.m result.h }
{
    let s = (u64::leading_zeros(m) - 11) as u64;
    let j = k + 52 - s;
    Normalised {
        m: m << (s + j % 2),
        h: j / 2,
    }
}

// The root of m within 0.7 %, by a parabola in m's leading digits. How near it is matters only to
// how soon `sqrt_rem` ends. m is a plain number here and below, with its bound in each clause: a type for
// it would be made once and taken apart in each step.
fn estimate(m: u64) -> u64
    requires { m < 2 ^ 54 }
    ensures { IsEstimate result }
{
    let t = m / 0x0040_0000_0000;
    34700000 + t * (2150 - t * 5 / 512)
}

// Heron's step: the mean of g and m / g. It is never below the root, and has about twice as many of
// its digits as g.
fn heron(m: u64, g: u64) -> u64
    requires { (m < 2 ^ 54) × IsEstimate g }
    ensures { IsAbove m result }
{
    (g + m / g) / 2
}

#[derive(Drop)]
struct RootRem {
    s: u64,
    r: u64,
}

// The whole part s of the root of m, and the remainder m - s * s. Two of Heron's steps leave s exact,
// or a little too large: in a run over random m by 1, for one m in two hundred. The loop counts no index.
fn sqrt_rem(m: u64) -> RootRem
    requires { (2 ^ 52 ≤ m) × (m < 2 ^ 54) }
    ensures { IsRootRem m result.s result.r }
{
    let g = heron(m, estimate(m));
    let mut s = heron(m, g);
    while m < s * s {
        s -= 1;
    }
    RootRem { s, r: m - s * s }
}

// 1 if a is below b, and 0 otherwise.
fn below(a: u64, b: u64) -> u64
    ensures { IsBelow a b result }
{
    u64::from(a < b)
}

// The whole part of the root of m * 2 ^ 54, from that of m and its remainder, by one division:
// P. Zimmermann, Karatsuba Square Root, INRIA RR-3805, 1999, with both low limbs 0.
fn whole_root(m: u64) -> u64
    requires { (2 ^ 52 ≤ m) × (m < 2 ^ 54) }
    ensures { IsWholeRoot (m * 2 ^ 54) result }
{
    let a = sqrt_rem(m);
    let d = 2 * a.s;
    let n = a.r * BASE;
    let q = n / d;
    let u = n % d;
    a.s * BASE + q - below(u * BASE, q * q)
}

// The root of m * 2 ^ k units, a unit being 2 ^ -1074, rounded to nearest. The whole root of 108
// digits has 54, of which the last says which way to round. It is a normal value, and the leading
// digit of its significand adds one to the exponent's field.
fn root_of_units(m: u64, k: u64) -> f64
    requires { (0 < m) × (m < 2 ^ 53) × (k < 2046) }
    ensures { result ≡ root_of_units (m * 2 ^ k) }
{
    let a = normalise(m, k);
    let s = whole_root(a.m);
    f64::from_bits((a.h + 485) * LEADING + (s + 1) / 2)
}

// The square root, rounded to nearest.
pub fn sqrt(x: f64) -> f64
    ensures exact { result ≡ square_root x }
    ensures nearest { IsSquareRoot x result }
{
    if x != x {
        return x;
    }
    if x == 0.0 {
        return x; // -0 gives -0
    }
    if x < 0.0 {
        return 0.0 / 0.0;
    }
    let b = f64::to_bits(x);
    if b == INFINITE {
        return x; // +∞ gives +∞
    }
    if b < LEADING {
        root_of_units(b, 0)
    } else {
        root_of_units(b % LEADING + LEADING, b / LEADING - 1)
    }
}
