// The Jacobian and the time partial of an attempt: what is asked for them, and how it goes on when they
// are there. The names and the order of the tests are those of rosenbrock.rs, whose attempt asks its
// closures where this one stops. Sizes is a clause of each call for the reason said at attempts' Given.
#![tactic(auto)]

ghost use Rattle.std.specs.Prelude.{◌≡◌, ◌≤◌, ◌<◌, length};
ghost use Rattle.attempts.specs.Marks.{noting, with_differentiation};
ghost use Rattle.attempts.specs.Attempt.{Scratch, on_marks, factor, combine, ask_partial, jacobian_done, open_column, next_column};
ghost use Rattle.attempts.specs.Calls.{Sizes, given_by, halt_stop, Halts, Moves, MovesFrom};

use attempts::{Given, Halt, Memo, Moved};
use stages::Work;
use stepping::Refusal;

// ---- the time partial, then the matrix

// The Jacobian and the time partial are there, and finite.
#[tactic(auto, using(attempts::proofs::Links::or_true), unfolding(attempts::specs::Marks::noting, attempts::specs::Marks::with_differentiation, attempts::specs::Calls::moved_stop, attempts::specs::Calls::moved_marks, attempts::specs::Attempt::on_marks, attempts::specs::Marks::with_caches))]
pub fn differentiated(given: &Given, work: &mut Work, pivots: &mut [usize]) -> Moved
    requires { Sizes given.now work.old × (length pivots.old ≡ given.now.setting.n) }
    ensures { Moves result work.old work.new pivots.old pivots.new (λ x. factor (given_by given.now) (on_marks (noting with_differentiation) x)) }
{
    Moved {
        differentiation: true,
        ..given.factor(work, pivots)
    }
}

// The time partial from the probes.
#[tactic(auto, using(crate::proofs::Probes::one_probe), unfolding(stepping::specs::Refusals::first_of, attempts::specs::Attempt::combine, attempts::specs::Attempt::on_work, attempts::specs::Attempt::partial_done, attempts::specs::Attempt::provided, attempts::specs::Attempt::choose, attempts::specs::Marks::second_probe, attempts::specs::Calls::halt_stop, attempts::specs::Calls::moved_stop, attempts::specs::Calls::moved_marks, attempts::specs::Attempt::on_marks, attempts::specs::Marks::with_caches))]
pub fn combine(given: &Given, work: &mut Work, pivots: &mut [usize], memo: &Memo) -> Moved
    requires { Sizes given.now work.old × (length pivots.old ≡ given.now.setting.n) }
    ensures { MovesFrom memo.now result work.old work.new pivots.old pivots.new (combine (given_by given.now)) }
{
    let time = given.setting.time;
    let first = memo.first_probe - time;
    let second = memo.second_probe().map(|second| second - time);
    differentiation::set_time_partial(work, first, second);
    match stepping::finite(work.time_partial()) {
        Ok(()) => differentiated(given, work, pivots),
        Err(refusal) => Moved::nothing(Err(refusal)),
    }
}

// ---- the Jacobian, then the time partial

// The host's time partial, or the first of its probes.
#[tactic(auto, unfolding(attempts::specs::Attempt::ask_partial, attempts::specs::Attempt::choose, attempts::specs::Attempt::ask_first_probe, attempts::specs::Calls::halt_stop))]
pub fn ask_partial(given: &Given) -> Result<Halt, Refusal>
    ensures { (x : Scratch) → halt_stop result x ≡ ask_partial (given_by given.now) x }
{
    let time = given.setting.time;
    if given.setting.host_time_partial {
        return Ok(Halt::TimePartial(time));
    }
    let (first, second) = given.setting.policy.probes(time, given.setting.step)?;
    Ok(Halt::FirstProbe(first, second))
}

#[tactic(auto, unfolding(stepping::specs::Refusals::first_of, attempts::specs::Attempt::jacobian_done, attempts::specs::Attempt::provided, attempts::specs::Attempt::choose, attempts::specs::Calls::halt_stop))]
fn jacobian_done(given: &Given, work: &Work) -> Result<Halt, Refusal>
    requires { Sizes given.now work.now }
    ensures { Halts result work.now work.now (jacobian_done (given_by given.now)) }
{
    stepping::finite(work.jacobian())?;
    ask_partial(given)
}

// Column k of the probed Jacobian: the derivative at the probe's state.
#[tactic(auto, unfolding(stepping::specs::Refusals::first_of, attempts::specs::Attempt::open_column, attempts::specs::Attempt::on_work, attempts::specs::Attempt::provided, attempts::specs::Attempt::choose, attempts::specs::Calls::halt_stop))]
fn open_column(given: &Given, work: &mut Work, k: usize) -> Result<Halt, Refusal>
    requires { Sizes given.now work.old × (k < given.now.setting.n) }
    ensures { Halts result work.old work.new (open_column (given_by given.now) k) }
{
    differentiation::set_probe_state(work, given.state, k);
    stepping::finite(work.probe_state())?;
    if differentiation::rise(given.state[k]) == 0.0 {
        return Err(Refusal::TimeResolution);
    }
    Ok(Halt::Column(k, given.setting.time))
}

#[tactic(auto, unfolding(attempts::specs::Attempt::next_column, attempts::specs::Attempt::choose))]
pub fn next_column(given: &Given, work: &mut Work, k: usize) -> Result<Halt, Refusal>
    requires { Sizes given.now work.old × (k ≤ given.now.setting.n) }
    ensures { Halts result work.old work.new (next_column (given_by given.now) k) }
{
    if k == given.setting.n {
        jacobian_done(given, work)
    } else {
        open_column(given, work, k)
    }
}
