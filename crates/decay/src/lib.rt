// The host of pond: y' = -y with Jacobian -1 and time partial 0. It answers what the stepper asks, and
// steps by 1. state, work and pivots are lent slice by slice: a struct of the three would be made for
// one call, and what is read and what is written differs from call to call.
#![tactic(auto)]

ghost use Rattle.std.specs.Prelude.{◌≡◌, ℕ, List, [], ◌∷◌, Float};
ghost use Rattle.vector.specs.Lists.{el};
ghost use Rattle.vector.specs.Parts.{part};
ghost use Rattle.refusals.specs.Answers.{lending};
ghost use Rattle.rosenbrock.specs.Outcomes.{system_of, next_of};
ghost use Rattle.readers.specs.Telling.{kind_by, tells};
ghost use Rattle.method.specs.Conversation.{answer_to};
ghost use Rattle.decay.specs.Host.{decay, supplied_by, answered_once, answered, decided, one_step};

use readers::{Kind, Told};
use rosenbrock::{Answer, Outcome, RosenbrockStepper};
use stepping::Refusal;

// The first component; a NaN where there is none.
pub fn first(x: &[f64]) -> f64
    ensures { result ≡ el x.now 0 }
{
    x.first().copied().unwrap_or(f64::NAN)
}

// The components from a place on, as many as are counted and there.
fn part(x: &[f64], at: usize, count: usize) -> &[f64]
    ensures { result.now ≡ part at count x.now }
{
    let rest = x.get(at..).unwrap_or(&[]);
    rest.get(..count).unwrap_or(rest)
}

// The derivative, the Jacobian or the time partial at y, whatever the time.
#[tactic(auto, unfolding(method::specs::Conversation::answer_to, readers::specs::Telling::kind_by, crate::specs::Host::decay))]
fn evaluated(kind: Kind, y: f64) -> f64
    ensures { (time : Float) → (result ∷ []) ≡ answer_to decay (kind_by kind) time (y ∷ []) }
{
    match kind {
        Kind::Derivative => -y,
        Kind::Jacobian => -1.0,
        Kind::TimePartial => 0.0,
    }
}

// What is supplied to what the reader told; a 0 where nothing is asked.
#[tactic(auto, unfolding(readers::specs::Telling::tells, readers::specs::Telling::reply_of, crate::specs::Host::supplied_by, crate::specs::Host::supplied_to))]
fn supplied(told: Result<Told, Refusal>, state: &[f64], work: &[f64]) -> f64
    ensures { (pivots : List ℕ) → (result ∷ []) ≡ supplied_by (tells told (lending state.now work.now pivots)) }
{
    match told {
        Ok(Told::AskedAtState(kind, _)) => evaluated(kind, first(state)),
        Ok(Told::AskedAtPart(kind, _, at, count)) => evaluated(kind, first(part(work, at, count))),
        _ => 0.0,
    }
}

// Answers what is asked, if something is.
#[tactic(auto, unfolding(rosenbrock::specs::Outcomes::next_of, rosenbrock::specs::Outcomes::answer_by, crate::specs::Host::answered_once, crate::specs::Host::if_asked))]
fn answered_once(
    outcome: Outcome,
    file: &[u8],
    state: &[f64],
    work: &mut [f64],
    pivots: &mut [usize],
) -> Outcome
    ensures { next_of result state.now work.new pivots.new
        ≡ answered_once file.now (next_of outcome state.now work.old pivots.old) }
{
    match outcome.answer {
        Ok(Answer::Asked) => {
            let told = readers::request(outcome.stepper, state, work, pivots);
            let values = [supplied(told, state, work)];
            outcome.stepper.supply(file, &values, state, work, pivots)
        }
        _ => outcome,
    }
}

// Answers all that is asked in a step: the derivative, the Jacobian, the time partial and at most 8
// stages.
#[tactic(auto, using(crate::proofs::Hosting::more), unfolding(crate::specs::Host::answered))]
fn answered(
    outcome: Outcome,
    file: &[u8],
    state: &[f64],
    work: &mut [f64],
    pivots: &mut [usize],
) -> Outcome
    ensures { next_of result state.now work.new pivots.new
        ≡ answered 11 file.now (next_of outcome state.now work.old pivots.old) }
{
    let mut last = outcome;
    for _ in 0..11usize {
        last = answered_once(last, file, state, work, pivots);
    }
    last
}

// Accepts what is shown, if something is.
#[tactic(auto, unfolding(rosenbrock::specs::Outcomes::next_of, rosenbrock::specs::Outcomes::answer_by, crate::specs::Host::decided, crate::specs::Host::if_shown))]
fn decided(outcome: Outcome, state: &mut [f64], work: &[f64], pivots: &[usize]) -> Outcome
    ensures { next_of result state.new work.now pivots.now
        ≡ decided (next_of outcome state.old work.now pivots.now) }
{
    match outcome.answer {
        Ok(Answer::Shown) => outcome.stepper.accept(state, work, pivots),
        _ => outcome,
    }
}

// One step by 1: an attempt, what it asks answered, and accept.
#[tactic(auto, unfolding(crate::specs::Host::one_step))]
pub fn one_step(
    stepper: RosenbrockStepper,
    file: &[u8],
    state: &mut [f64],
    work: &mut [f64],
    pivots: &mut [usize],
) -> Outcome
    ensures { next_of result state.new work.new pivots.new
        ≡ one_step file.now (system_of stepper state.old work.old pivots.old) }
{
    let opened = stepper.attempt(file, 1.0, true, true, state, work, pivots);
    let last = answered(opened, file, state, work, pivots);
    decided(last, state, work, pivots)
}
