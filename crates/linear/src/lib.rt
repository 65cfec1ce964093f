// Dense LU with partial pivoting, and the solution of a factored system, in place, on matrices by
// rows. The names and the order of the operations are those of linear.rs.
#![tactic(auto)]

ghost use Rattle.std.specs.Prelude.{◌≡◌, cond, ◌*◌, ◌≤◌, ltb, length, get_or};
ghost use Rattle.std.specs.Float.Ieee.{lt};
ghost use Rattle.vector.specs.Lists.{el, every};
ghost use Rattle.linear.specs.Elimination.{scale, threshold, unusable};
ghost use Rattle.linear.specs.Substitution.{solution};
ghost use Rattle.linear.specs.Calls.{square, outcome, raw_of, factorize_of, Solvable, solved, solve_of};

mod factors;
mod matrix;

use factors::Factors;
use matrix::Matrix;
use stepping::Refusal;

// x where it is larger than m, which is no NaN: a maximum in one instruction. proposal's at_least is the same
// line; in float it would be a third maximum.
fn larger(m: f64, x: f64) -> f64
    ensures { result ≡ cond (lt m x) x m }
{
    if m < x { x } else { m }
}

#[inline(always)]
fn largest_of(entries: &[f64]) -> f64
    ensures { result ≡ scale entries.now }
{
    entries
        .iter()
        .fold(0.0, |scale, x| larger(scale, float::abs(*x)))
}

// The largest magnitude of a matrix. Sixteen entries take no loop: the compiler writes them out.
fn largest_magnitude(matrix: &[f64]) -> f64
    ensures { result ≡ scale matrix.now }
{
    if matrix.len() == 16 {
        largest_of(&matrix[..16])
    } else {
        largest_of(matrix)
    }
}

// What a pivot has to exceed.
fn threshold(scale: f64, n: usize) -> f64
    requires { n ≤ 32 }
    ensures { result ≡ threshold n scale }
{
    float::EPSILON * scale * (n as f64)
}

// Whether a magnitude is not finite, or not above the threshold.
#[tactic(auto, unfolding(crate::specs::Elimination::unusable))]
fn unusable(magnitude: f64, threshold: f64) -> bool
    ensures { result ≡ unusable magnitude threshold }
{
    !float::is_finite(magnitude) || magnitude <= threshold
}

// The raw form: sizes that fit are the caller's to see to, and entries are not tested. matrix, pivots and n
// come one by one here and below, as the exports hand them on.
#[tactic(auto, unfolding(crate::specs::Calls::raw_of))]
pub fn factorize_raw(matrix: &mut [f64], pivots: &mut [usize], n: usize) -> Result<(), Refusal>
    requires { (n ≤ 32) × (length matrix.old ≡ n * n) × (length pivots.old ≡ n) }
    ensures { outcome result matrix.new pivots.new ≡ raw_of n matrix.old pivots.old }
{
    let matrix_scale = largest_magnitude(matrix);
    if unusable(matrix_scale, 0.0) {
        return Err(Refusal::Singular);
    }
    let singularity_threshold = threshold(matrix_scale, n);
    // Four columns by number, so that the compiler writes the loops out: an accepted attempt of four stages on four
    // components takes 1.03 of the original's time, and 1.13 without it.
    if n == 4 {
        Matrix {
            entries: matrix,
            n: 4,
        }
        .eliminate_four(pivots, singularity_threshold)
    } else {
        Matrix { entries: matrix, n }.eliminate_columns(pivots, singularity_threshold)
    }
}

// Whether n and the lengths are those of a matrix and its pivots.
#[tactic(auto, unfolding(crate::specs::Calls::square))]
pub fn is_square(matrix: &[f64], pivots: &[usize], n: usize) -> bool
    ensures { result ≡ square n matrix.now pivots.now }
{
    0 < n && n <= 32 && matrix.len() == n * n && pivots.len() == n
}

// Factors an n by n matrix in place, and lists the rows of its pivots.
#[tactic(auto, using(crate::proofs::Answers::sizes), unfolding(stepping::specs::Refusals::first_of, stepping::specs::Refusals::unless_refused, crate::specs::Calls::factorize_of))]
pub fn factorize(matrix: &mut [f64], pivots: &mut [usize], n: usize) -> Result<(), Refusal>
    ensures { outcome result matrix.new pivots.new ≡ factorize_of n matrix.old pivots.old }
{
    if !is_square(matrix, pivots, n) {
        return Err(Refusal::Dimension);
    }
    stepping::finite(matrix)?;
    factorize_raw(matrix, pivots, n)
}

// Solves a factored system in place, and hands back the first unknown, which is found last; sizes and pivots that fit
// are the caller's to see to.
pub fn solve_factorized(factors: &[f64], pivots: &[usize], rhs: &mut [f64], n: usize) -> f64
    requires { Solvable n factors.now pivots.now rhs.old }
    ensures { (rhs.new ≡ solution n factors.now pivots.now rhs.old) × (result ≡ el rhs.new 0) }
{
    // Four unknowns by number, so that the compiler writes the loops out.
    if n == 4 {
        Factors {
            entries: factors,
            n: 4,
        }
        .solve(pivots, rhs);
    } else {
        Factors {
            entries: factors,
            n,
        }
        .solve(pivots, rhs);
    }
    rhs[0]
}

// Whether each pivot is a row.
pub fn all_below(pivots: &[usize], n: usize) -> bool
    ensures { result ≡ every (length pivots.now) (λ k. ltb (get_or pivots.now k 0) n) }
{
    pivots.iter().all(|pivot| *pivot < n)
}

// Solves A x = b in place, for the factors and the pivots of A.
#[tactic(auto, unfolding(stepping::specs::Refusals::first_of, stepping::specs::Refusals::unless_refused, crate::specs::Calls::solve_of))]
pub fn solve(factors: &[f64], pivots: &[usize], rhs: &mut [f64], n: usize) -> Result<(), Refusal>
    ensures { solved result rhs.new ≡ solve_of n factors.now pivots.now rhs.old }
{
    if !is_square(factors, pivots, n) || rhs.len() != n {
        return Err(Refusal::Dimension);
    }
    if !all_below(pivots, n) {
        return Err(Refusal::PivotRange);
    }
    solve_factorized(factors, pivots, rhs, n);
    Ok(())
}
