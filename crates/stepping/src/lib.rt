// Why a call is refused, the time that a step reaches, and a step cut at an endpoint.
#![tactic(auto)]

ghost use Rattle.std.specs.Prelude.{◌≡◌, [], ◌∷◌};
ghost use Rattle.stepping.specs.Dimension.{same_dimension};
ghost use Rattle.stepping.specs.Refusals.{number, number_of, first_of, finite_test};
ghost use Rattle.stepping.specs.Time.{stuck, checked_time, clipped, points_away, endpoint_step};

use thiserror::Error;

// Why a call is refused: the first thirteen because of what is handed over, the others because of the state.
#[derive(Clone, Copy, Debug, PartialEq, Eq, Error)]
pub enum Refusal {
    #[error("lengths or sizes do not fit")]
    Dimension = 1,
    #[error("a number is not finite")]
    NonFinite,
    #[error("hybrid tableaus are not supported")]
    UnsupportedTableau,
    #[error("the direction is wrong")]
    Direction,
    #[error("the time cannot resolve the step")]
    TimeResolution,
    #[error("the matrix is singular")]
    Singular,
    #[error("the controller's settings or state are invalid")]
    Configuration,
    #[error("a tolerance is not positive and finite")]
    Tolerance,
    #[error("the norms give no first step")]
    FirstStep,
    #[error("the segment is invalid")]
    SegmentData,
    #[error("the time lies outside the segment")]
    OutsideTimeSpan,
    #[error("this is no tableau file")]
    TableauFile,
    #[error("a pivot is no row")]
    PivotRange,
    #[error("a candidate is pending")]
    PendingCandidate,
    #[error("no candidate is pending")]
    NoCandidate,
    #[error("no shorter step is allowed")]
    MinimumStep,
    #[error("nothing was requested")]
    NoRequest,
    #[error("an attempt is open")]
    AttemptOpen,
    #[error("the host reported failure")]
    HostFailure,
}

impl Refusal {
    // From 1 to 19: what a host in another language is told.
    #[tactic(auto, unfolding(crate::specs::Refusals::number))]
    pub fn number(self) -> u32
        ensures { result ≡ number self }
    {
        self as u32
    }
}

// The refusal's number, 0 for none.
#[tactic(auto, unfolding(crate::specs::Refusals::number_of))]
pub fn number_of<T: Copy>(answer: Result<T, Refusal>) -> u32
    ensures { result ≡ number_of answer }
{
    match answer {
        Ok(_) => 0,
        Err(refusal) => refusal.number(),
    }
}

// Whether each value is finite.
#[tactic(auto, unfolding(crate::specs::Refusals::first_of))]
pub fn finite(values: &[f64]) -> Result<(), Refusal>
    ensures { result ≡ first_of (finite_test values.now ∷ []) }
{
    if vector::all_finite(values) {
        Ok(())
    } else {
        Err(Refusal::NonFinite)
    }
}

// Whether a step other than 0 leaves the time where it was.
fn stuck(time: f64, step: f64, end: f64) -> bool
    ensures { result ≡ stuck time step end }
{
    step != 0.0 && end == time
}

// The time that a step reaches.
#[tactic(auto, unfolding(crate::specs::Time::checked_time, crate::specs::Refusals::first_of, crate::specs::Refusals::unless_refused))]
pub fn checked_time(time: f64, step: f64) -> Result<f64, Refusal>
    ensures { result ≡ checked_time time step }
{
    let end = time + step;
    finite(&[time, step, end])?;
    if stuck(time, step, end) {
        return Err(Refusal::TimeResolution);
    }
    Ok(end)
}

// Whether a proposal points away from where the endpoint lies.
#[tactic(auto, unfolding(crate::specs::Time::points_away))]
fn points_away(remaining: f64, proposal: f64) -> bool
    ensures { result ≡ points_away remaining proposal }
{
    proposal == 0.0 || float::signum(remaining) != float::signum(proposal)
}

// The proposed step, cut at the endpoint.
#[tactic(auto, unfolding(crate::specs::Time::clipped))]
fn clipped(remaining: f64, proposal: f64) -> f64
    ensures { result ≡ clipped remaining proposal }
{
    if float::abs(proposal) > float::abs(remaining) {
        remaining
    } else {
        proposal
    }
}

// The proposed step cut at the endpoint, 0 where the endpoint is reached.
#[tactic(auto, unfolding(crate::specs::Time::endpoint_step, crate::specs::Time::if_reached, crate::specs::Refusals::first_of))]
pub fn endpoint_step(time: f64, endpoint: f64, proposal: f64) -> Result<f64, Refusal>
    ensures { result ≡ endpoint_step time endpoint proposal }
{
    finite(&[time, endpoint, proposal])?;
    let remaining = endpoint - time;
    if remaining == 0.0 {
        return Ok(0.0);
    }
    if points_away(remaining, proposal) {
        return Err(Refusal::Direction);
    }
    let step = clipped(remaining, proposal);
    checked_time(time, step)?;
    Ok(step)
}

// Whether the three have one length, from 1 to 32.
#[tactic(auto, unfolding(crate::specs::Dimension::same_dimension))]
pub fn same_dimension(n: usize, m: usize, k: usize) -> bool
    ensures { result ≡ same_dimension n m k }
{
    1 <= n && n <= 32 && m == n && k == n
}
