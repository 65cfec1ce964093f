// The first step: a guess from the state, its derivative and the scales of the components.
#![tactic(auto)]

ghost use Rattle.std.specs.Prelude.{◌≡◌, ◌≤◌, true, length, IfOk, OnOk};
ghost use Rattle.float.specs.Methods.{finite_positive};
ghost use Rattle.initial_step.specs.Norm.{ratio, square, raised, summed, added, mean, rms};
ghost use Rattle.initial_step.specs.First.{Directed, all_above, undirected, slight, unbounded, guess, proposed, initial_step};

use stepping::Refusal;

// The largest ratio so far, and the sum of the squares in units of its square.
#[derive(Clone, Copy)]
pub struct ScaledSum {
    pub largest: f64,
    pub sum: f64,
}

fn all_above(scales: &[f64]) -> bool
    ensures { result ≡ all_above scales.now }
{
    scales.iter().all(|scale| !(*scale <= 0.0))
}

#[tactic(auto, unfolding(crate::specs::First::undirected))]
fn undirected(scales: &[f64], direction: f64, maximum: f64) -> bool
    ensures { result ≡ undirected scales.now direction maximum }
{
    !all_above(scales) || float::abs(direction) != 1.0 || maximum <= 0.0
}

fn ratio(value: f64, scale: f64) -> f64
    ensures { result ≡ ratio value scale }
{
    float::abs(value) / scale
}

fn square(x: f64) -> f64
    ensures { result ≡ square x }
{
    x * x
}

// Inlined, since a struct that is handed over goes through memory: a first step takes 1 in 10 longer otherwise.
impl ScaledSum {
    // A new largest ratio: the sum is scaled down to it.
    #[inline(always)]
    #[tactic(auto, unfolding(crate::specs::Norm::raised))]
    fn raised(self, value: f64) -> ScaledSum
        ensures { result ≡ raised self value }
    {
        ScaledSum {
            largest: value,
            sum: 1.0 + self.sum * square(self.largest / value),
        }
    }

    #[inline(always)]
    #[tactic(auto, unfolding(crate::specs::Norm::summed))]
    fn summed(self, value: f64) -> ScaledSum
        ensures { result ≡ summed self value }
    {
        ScaledSum {
            sum: self.sum + square(value / self.largest),
            ..self
        }
    }

    #[inline(always)]
    #[tactic(auto, unfolding(crate::specs::Norm::added))]
    fn added(self, value: f64) -> ScaledSum
        ensures { result ≡ added self value }
    {
        if value == 0.0 {
            self
        } else if value > self.largest {
            self.raised(value)
        } else {
            self.summed(value)
        }
    }

    #[inline(always)]
    #[tactic(auto, using(square_root::proofs::Std::sqrt_of_quotient), unfolding(crate::specs::Norm::mean))]
    fn mean(self, n: usize) -> f64
        requires { n ≤ 32 }
        ensures { result ≡ mean self n }
    {
        self.largest * (self.sum / n as f64).sqrt()
    }
}

// The root mean square of the scaled values; infinite where a ratio is.
#[inline(always)]
#[tactic(auto, unfolding(crate::specs::Norm::rms, crate::specs::Norm::scaled_sum, crate::specs::Norm::nothing, vector::specs::Lists::every))]
fn rms(values: &[f64], scales: &[f64]) -> f64
    requires { (length values.now ≡ length scales.now) × (length values.now ≤ 32) }
    ensures { result ≡ rms values.now scales.now }
{
    let mut sums = ScaledSum {
        largest: 0.0,
        sum: 0.0,
    };
    for i in 0..values.len() {
        let ratio = ratio(values[i], scales[i]);
        if !float::is_finite(ratio) {
            return f64::INFINITY;
        }
        sums = sums.added(ratio);
    }
    sums.mean(values.len())
}

#[tactic(auto, unfolding(crate::specs::First::slight))]
fn slight(d0: f64, d1: f64) -> bool
    ensures { result ≡ slight d0 d1 }
{
    d0 < 1e-5 || d1 < 1e-5
}

// Whether only logarithms would give the quotient of the norms.
#[tactic(auto, unfolding(crate::specs::First::unbounded))]
fn unbounded(d0: f64, d1: f64) -> bool
    ensures { result ≡ unbounded d0 d1 }
{
    !slight(d0, d1) && !(float::is_finite(d0) && float::is_finite(d1))
}

#[tactic(auto, unfolding(crate::specs::First::guess))]
fn guess(d0: f64, d1: f64, maximum: f64) -> f64
    ensures { result ≡ guess d0 d1 maximum }
{
    if slight(d0, d1) {
        1e-6
    } else {
        float::min(0.01 * d0 / d1, maximum)
    }
}

// The step from the two norms.
#[tactic(auto, unfolding(crate::specs::First::proposed))]
fn proposed(d0: f64, d1: f64, direction: f64, maximum: f64) -> Result<f64, Refusal>
    ensures { result ≡ proposed d0 d1 direction maximum }
{
    if unbounded(d0, d1) {
        return Err(Refusal::FirstStep);
    }
    let h = guess(d0, d1, maximum);
    Ok(direction * float::min(h, maximum))
}

// The step from the norms of the state and its derivative. Where the first is below 1e-5 the second has no say:
// it is not worked out.
#[inline(always)]
#[tactic(auto, unfolding(crate::specs::First::proposed, crate::specs::First::unbounded, crate::specs::First::guess, crate::specs::First::slight))]
fn proposed_by_norms(
    state: &[f64],
    derivative: &[f64],
    scales: &[f64],
    direction: f64,
    maximum: f64,
) -> Result<f64, Refusal>
    requires { (length state.now ≡ length scales.now) × (length derivative.now ≡ length scales.now) × (length scales.now ≤ 32) }
    ensures { result ≡ proposed (rms state.now scales.now) (rms derivative.now scales.now) direction maximum }
{
    let d0 = rms(state, scales);
    if d0 < 1e-5 {
        return proposed(d0, d0, direction, maximum);
    }
    proposed(d0, rms(derivative, scales), direction, maximum)
}

// The first step. Nothing tests the guess: wherever a step is answered, it is finite and above 0.
#[tactic(auto, using(stepping::proofs::Dimension::sizes), unfolding(crate::specs::First::initial_step, crate::specs::First::input_tests, stepping::specs::Refusals::first_of, stepping::specs::Refusals::unless_refused))]
pub fn initial_step(
    state: &[f64],
    derivative: &[f64],
    scales: &[f64],
    direction: f64,
    maximum: f64,
) -> Result<f64, Refusal>
    ensures step { result ≡ initial_step state.now derivative.now scales.now direction maximum }
    ensures directed { IfOk result (Directed direction maximum) }
    ensures guessed { OnOk result (finite_positive (guess (rms state.now scales.now) (rms derivative.now scales.now) maximum) ≡ true) }
{
    if !stepping::same_dimension(state.len(), derivative.len(), scales.len()) {
        return Err(Refusal::Dimension);
    }
    stepping::finite(state)?;
    stepping::finite(derivative)?;
    stepping::finite(scales)?;
    stepping::finite(&[direction, maximum])?;
    if undirected(scales, direction, maximum) {
        return Err(Refusal::Direction);
    }
    proposed_by_norms(state, derivative, scales, direction, maximum)
}
