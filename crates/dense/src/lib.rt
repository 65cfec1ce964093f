// The continuous output of a Rosenbrock step: the state at a time between two accepted ones.
#![tactic(auto)]

ghost use Rattle.std.specs.Prelude.{◌≡◌, ◌<◌, length};
ghost use Rattle.vector.specs.Lists.{table};
ghost use Rattle.stepping.specs.Refusals.{first_of};
ghost use Rattle.dense.specs.Segment.{size, polynomial, blend, component};
ghost use Rattle.dense.specs.Shown.{shown, Fits};
ghost use Rattle.dense.specs.Interpolation.{times_fit, sizes_fit, numbers_fit, valid, contains, query_tests, outcome, interpolate};

use stepping::Refusal;

// A step between two accepted states. The corrections are rows of as many numbers as a state has, as
// many rows as the order says.
#[derive(Clone, Copy)]
pub struct Segment<'a> {
    pub start_time: f64,
    pub end_time: f64,
    pub start_state: &'a [f64],
    pub end_state: &'a [f64],
    pub corrections: &'a [f64],
    pub order: usize,
}

// One component from its two states and its polynomial.
#[tactic(auto, unfolding(crate::specs::Segment::blend))]
fn blend(theta: f64, start_state: f64, end_state: f64, polynomial: f64) -> f64
    ensures { result ≡ blend theta start_state end_state polynomial }
{
    let theta1 = 1.0 - theta;
    theta1 * start_state + theta * (end_state + theta1 * polynomial)
}

#[tactic(auto, unfolding(stepping::specs::Refusals::first_of))]
fn validate_dense_query(
    contains_time: bool,
    output_dimension: usize,
    state_dimension: usize,
) -> Result<(), Refusal>
    ensures { result ≡ first_of (query_tests contains_time output_dimension state_dimension) }
{
    if output_dimension != state_dimension {
        return Err(Refusal::Dimension);
    }
    if !contains_time {
        return Err(Refusal::OutsideTimeSpan);
    }
    Ok(())
}

impl<'a> Segment<'a> {
    // Whether the times are finite and differ.
    #[tactic(auto, unfolding(crate::specs::Interpolation::times_fit))]
    fn times_fit(&self) -> bool
        ensures { result ≡ times_fit self.now.start_time self.now.end_time }
    {
        float::is_finite(self.start_time)
            && float::is_finite(self.end_time)
            && self.end_time != self.start_time
    }

    // Whether the lengths and the order fit each other. Both are in their range where they are
    // multiplied.
    #[tactic(auto, unfolding(crate::specs::Interpolation::sizes_fit))]
    fn sizes_fit(&self) -> bool
        ensures { result ≡ sizes_fit (length self.now.start_state.now) (length self.now.end_state.now) (length self.now.corrections.now) self.now.order }
    {
        let dimension = self.start_state.len();
        1 <= dimension
            && dimension <= 32
            && self.end_state.len() == dimension
            && 2 <= self.order
            && self.order <= 4
            && self.corrections.len() == self.order * dimension
    }

    // Whether states and corrections are finite.
    #[tactic(auto, unfolding(crate::specs::Interpolation::numbers_fit))]
    fn numbers_fit(&self) -> bool
        ensures { result ≡ numbers_fit self.now.start_state.now self.now.end_state.now self.now.corrections.now }
    {
        vector::all_finite(self.start_state)
            && vector::all_finite(self.end_state)
            && vector::all_finite(self.corrections)
    }

    // Whether this is a segment.
    #[tactic(auto, unfolding(crate::specs::Interpolation::valid))]
    fn is_valid(&self) -> bool
        ensures { result ≡ valid (shown self.now) }
    {
        self.times_fit() && self.sizes_fit() && self.numbers_fit()
    }

    // Whether a time lies between the ends, these included. A NaN does not.
    #[tactic(auto, unfolding(crate::specs::Interpolation::contains))]
    fn contains(&self, time: f64) -> bool
        ensures { result ≡ contains self.now.start_time self.now.end_time time }
    {
        if self.start_time < self.end_time {
            self.start_time <= time && time <= self.end_time
        } else {
            self.end_time <= time && time <= self.start_time
        }
    }

    // The polynomial of one component, from the last row of the corrections.
    #[tactic(auto, unfolding(crate::specs::Segment::polynomial, crate::specs::Segment::horner))]
    fn polynomial(&self, theta: f64, component: usize) -> f64
        requires fits { Fits (shown self.now) }
        requires in_range { component < size (shown self.now) }
        ensures { result ≡ polynomial self.now.corrections.now self.now.order (size (shown self.now)) theta component }
    {
        let dimension = self.start_state.len();
        let mut polynomial = self.corrections[(self.order - 1) * dimension + component];
        for row in (0..self.order - 1).rev() {
            polynomial = self.corrections[row * dimension + component] + theta * polynomial;
        }
        polynomial
    }

    // The state at a time of a segment that was found valid.
    #[tactic(auto, using(vector::proofs::Loops::storing), unfolding(crate::specs::Segment::inside))]
    fn interpolate_stiff(&self, time: f64, output: &mut [f64])
        requires fits { Fits (shown self.now) }
        requires room { length output.old ≡ size (shown self.now) }
        ensures { output.new ≡ table (component (shown self.now) time) (size (shown self.now)) }
    {
        if time == self.start_time {
            vector::copy(output, self.start_state);
            return;
        }
        if time == self.end_time {
            vector::copy(output, self.end_state);
            return;
        }
        let theta = (time - self.start_time) / (self.end_time - self.start_time);
        for component in 0..output.len() {
            let polynomial = self.polynomial(theta, component);
            output[component] = blend(
                theta,
                self.start_state[component],
                self.end_state[component],
                polynomial,
            );
        }
    }

    // Writes the state at a time of the segment into the output. Refused, it writes nothing.
    #[tactic(auto, unfolding(crate::specs::Interpolation::interpolate, stepping::specs::Refusals::first_of, stepping::specs::Refusals::unless_refused))]
    pub fn interpolate(&self, time: f64, output: &mut [f64]) -> Result<(), Refusal>
        ensures { outcome result output.new ≡ interpolate (shown self.now) time output.old }
    {
        if !self.is_valid() {
            return Err(Refusal::SegmentData);
        }
        validate_dense_query(self.contains(time), output.len(), self.start_state.len())?;
        self.interpolate_stiff(time, output);
        Ok(())
    }
}
