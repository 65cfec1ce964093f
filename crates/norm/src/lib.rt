// The error norm of a step: the root of the mean of the squared errors, each over its scale.
#![tactic(auto)]

ghost use Rattle.std.specs.Prelude.{◌≡◌, true, cond, ◌&&◌, [], ◌∷◌, length};
ghost use Rattle.std.specs.Float.Ieee.{lt, le};
ghost use Rattle.std.specs.Float.Ieee.Scale.{finite};
ghost use Rattle.float.specs.Operators.{◌⊕◌};
ghost use Rattle.float.specs.Methods.{abs, max_num, finite_positive};
ghost use Rattle.vector.specs.Lists.{all_finite};
ghost use Rattle.stepping.specs.Refusals.{first_of, finite_test};
ghost use Rattle.norm.specs.ErrorNorm.{scale, ratio, sum_of_squares};
ghost use Rattle.norm.specs.ScaledErrorNorm.{scaled_error_norm};

use stepping::Refusal;

fn smaller(a: f64, b: f64) -> f64
    ensures { result ≡ cond (lt a b) a b }
{
    if a < b { a } else { b }
}

// The one that `smaller` leaves, of two numbers. By the same test it would become a jump.
fn other(a: f64, b: f64) -> f64
    ensures { result ≡ cond (le b a) a b }
{
    if b <= a { a } else { b }
}

fn larger(a: f64, b: f64) -> f64
    ensures { result ≡ cond (lt a b) b a }
{
    if a < b { b } else { a }
}

// max(|a|, |b|) of two finite numbers. A NaN is not looked for, and one difference is taken in place of two.
#[tactic(auto, using(crate::proofs::Magnitude::is_magnitude))]
fn larger_magnitude(a: f64, b: f64) -> f64
    ensures { finite a ≡ true → finite b ≡ true → result ≡ max_num (abs a) (abs b) }
{
    larger(0.0 - smaller(a, b), other(a, b))
}

// What an error is measured against.
#[tactic(auto, unfolding(crate::specs::ErrorNorm::scale))]
fn scale(value: f64, candidate: f64, absolute: f64, relative: f64) -> f64
    ensures { finite value ≡ true → finite candidate ≡ true → result ≡ scale absolute relative value candidate }
{
    absolute + relative * larger_magnitude(value, candidate)
}

// The sum of the squared ratios, and that of both states' components. A number that is not finite
// leaves no finite sum, and a second sum costs less than a test of each number.
#[inline(always)]
fn sums(state: &[f64], candidate: &[f64], error: &[f64], absolute: f64, relative: f64) -> (f64, f64)
    requires { (length candidate.now ≡ length state.now) × (length error.now ≡ length state.now) }
    ensures tested { finite (result.0 ⊕ result.1) ≡ true → (all_finite state.now ≡ true) × (all_finite candidate.now ≡ true) × (all_finite error.now ≡ true) }
    ensures squared { all_finite state.now ≡ true → all_finite candidate.now ≡ true → result.0 ≡ sum_of_squares (ratio absolute relative state.now candidate.now error.now) (length state.now) }
{
    let mut squared_norm = 0.0;
    let mut values = 0.0;
    for i in 0..state.len() {
        let scale = scale(state[i], candidate[i], absolute, relative);
        let ratio = error[i] / scale;
        squared_norm += ratio * ratio;
        values += state[i] + candidate[i];
    }
    (squared_norm, values)
}

// Whether all three hold finite numbers only. Where a sum that all of them entered is finite, they do;
// else each is looked at, as a sum of finite numbers may pass the largest double.
#[tactic(auto, unfolding(stepping::specs::Refusals::first_of))]
fn finite(state: &[f64], candidate: &[f64], error: &[f64], sum: f64) -> Result<(), Refusal>
    requires { finite sum ≡ true → (all_finite state.now ≡ true) × (all_finite candidate.now ≡ true) × (all_finite error.now ≡ true) }
    ensures { result ≡ first_of (finite_test state.now ∷ finite_test candidate.now ∷ finite_test error.now ∷ []) }
{
    if float::is_finite(sum) {
        return Ok(());
    }
    stepping::finite(state)?;
    stepping::finite(candidate)?;
    stepping::finite(error)
}

// Whether the tolerances can be used.
fn tolerable(absolute: f64, relative: f64) -> bool
    ensures { result ≡ (finite_positive absolute && finite_positive relative) }
{
    float::is_finite_positive(absolute) && float::is_finite_positive(relative)
}

// The root of the mean of the squared errors, each over its scale.
#[tactic(auto, using(stepping::proofs::Dimension::sizes, crate::proofs::Terms::small_exact, square_root::proofs::Std::sqrt_of_quotient), unfolding(crate::specs::ScaledErrorNorm::scaled_error_norm, crate::specs::ErrorNorm::error_norm, crate::specs::ErrorNorm::root_mean_square, stepping::specs::Refusals::first_of, stepping::specs::Refusals::unless_refused))]
pub fn scaled_error_norm(
    state: &[f64],
    candidate: &[f64],
    error: &[f64],
    absolute: f64,
    relative: f64,
) -> Result<f64, Refusal>
    ensures { result ≡ scaled_error_norm absolute relative state.now candidate.now error.now }
{
    if !stepping::same_dimension(state.len(), candidate.len(), error.len()) {
        return Err(Refusal::Dimension);
    }
    let (squared_norm, values) = sums(state, candidate, error, absolute, relative);
    finite(state, candidate, error, squared_norm + values)?;
    if !tolerable(absolute, relative) {
        return Err(Refusal::Tolerance);
    }
    Ok((squared_norm / state.len() as f64).sqrt())
}
