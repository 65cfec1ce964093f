// The evaluations that an attempt asks for before its stages, and how it goes on with what is supplied.
// The names and the order of the tests are those of rosenbrock.rs, whose attempt asks its closures
// where this one stops.
#![tactic(auto)]

ghost use Rattle.std.specs.Prelude.{◌≡◌, ◌<◌, ◌+◌, length, ℕ};
ghost use Rattle.vector.specs.Lists.{el};
ghost use Rattle.vector.specs.Parts.{puts};
ghost use Rattle.stages.specs.Layout.{Room};
ghost use Rattle.stages.specs.Lent.{Becomes};
ghost use Rattle.differentiation.specs.Differences.{rise};
ghost use Rattle.differentiation.specs.Memory.{with_column};
ghost use Rattle.attempts.specs.Marks.{Counted, noting, with_derivative};
ghost use Rattle.attempts.specs.Attempt.{scratch, on_work, on_marks, choose, ask_rhs, combine, next_column, ask_jacobian, differentiate, evaluate, start, resume, wanted, place};
ghost use Rattle.attempts.specs.Calls.{Fits, Sizes, Answers, given_by, marked, moved_stop, Halts, MovesFrom};

use attempts::{Ask, Given, Halt, Memo, Moved};
use stages::{Layout, Work};
use stepping::Refusal;

// ---- the caches

// given and memo are read, work and pivots written: in one struct, lent for writing, each contract would
// have to say that the first two stay.

// The host's Jacobian, or the first of its columns.
#[tactic(auto, unfolding(attempts::specs::Attempt::ask_jacobian, attempts::specs::Attempt::choose, attempts::specs::Calls::halt_stop))]
fn ask_jacobian(given: &Given, work: &mut Work) -> Result<Halt, Refusal>
    requires { Sizes given.now work.old }
    ensures { Halts result work.old work.new (ask_jacobian (given_by given.now)) }
{
    if given.setting.host_jacobian {
        return Ok(Halt::Jacobian(given.setting.time));
    }
    partials::next_column(given, work, 0)
}

// The matrix, or the Jacobian before it, unless it and the time partial are cached and valid.
#[tactic(auto, unfolding(attempts::specs::Attempt::differentiate, attempts::specs::Attempt::choose, attempts::specs::Marks::counting, attempts::specs::Marks::counting_jacobian, attempts::specs::Calls::moved_stop, attempts::specs::Calls::moved_marks, attempts::specs::Attempt::on_marks, attempts::specs::Marks::with_caches))]
fn differentiate(given: &Given, work: &mut Work, pivots: &mut [usize], memo: &Memo) -> Moved
    requires { Sizes given.now work.old × (length pivots.old ≡ given.now.setting.n) }
    ensures { MovesFrom memo.now result work.old work.new pivots.old pivots.new (differentiate (given_by given.now)) }
{
    if memo.differentiation_valid {
        return given.factor(work, pivots);
    }
    Moved {
        jacobian: true,
        ..Moved::nothing(ask_jacobian(given, work))
    }
}

// ---- the start

#[tactic(auto, unfolding(attempts::specs::Attempt::evaluate, attempts::specs::Attempt::choose, attempts::specs::Calls::halt_stop, attempts::specs::Calls::moved_stop, attempts::specs::Calls::moved_marks, attempts::specs::Attempt::on_marks, attempts::specs::Marks::with_caches))]
fn evaluate(given: &Given, work: &mut Work, pivots: &mut [usize], memo: &Memo) -> Moved
    requires { Sizes given.now work.old × (length pivots.old ≡ given.now.setting.n) }
    ensures { MovesFrom memo.now result work.old work.new pivots.old pivots.new (evaluate (given_by given.now)) }
{
    if memo.derivative_valid {
        differentiate(given, work, pivots, memo)
    } else {
        Moved::nothing(Ok(Halt::Derivative(given.setting.time)))
    }
}

// Opens an attempt: the candidate is the state, and the error 0.
#[tactic(auto, unfolding(attempts::specs::Attempt::start, attempts::specs::Attempt::on_work, attempts::specs::Attempt::begun, attempts::specs::Attempt::choose, attempts::specs::Attempt::show, attempts::specs::Calls::halt_stop, attempts::specs::Calls::moved_stop, attempts::specs::Calls::moved_marks, attempts::specs::Attempt::on_marks, attempts::specs::Marks::with_caches))]
pub fn start(given: &Given, work: &mut [f64], pivots: &mut [usize], memo: &Memo) -> Moved
    requires { Room given.now.setting.n given.now.setting.s (length work.old) × Fits given.now × (length pivots.old ≡ given.now.setting.n) }
    ensures { (c : Counted) → moved_stop result (scratch (marked memo.now c) work.new pivots.new)
        ≡ start (given_by given.now) (scratch (marked memo.now c) work.old pivots.old) }
{
    let layout = Layout {
        n: given.setting.n,
        s: given.setting.s,
    };
    let mut work = Work {
        cells: work,
        layout,
    };
    work.set_candidate(given.state);
    work.clear_error();
    if given.setting.step == 0.0 {
        return Moved::nothing(Ok(Halt::Shows(attempts::shows_error(given.file))));
    }
    evaluate(given, &mut work, pivots, memo)
}

// ---- what a supply does: the values are written, then tested. What was asked stands in C's record, as
// numbers: it holds no closure that would go on, so a match chooses

#[tactic(auto, unfolding(attempts::specs::Attempt::place, attempts::specs::Attempt::wanted))]
fn store(work: &mut Work, ask: Ask, values: &[f64])
    requires stage { (i : ℕ) → ask ≡ Ask.Stage i → i < work.old.layout.s }
    requires lengths { length values.now ≡ wanted work.old.layout.n ask }
    ensures { Becomes work.old work.new (λ l w. puts w (place l.n l.s ask) (el values.now) (wanted l.n ask)) }
{
    match ask {
        Ask::Derivative => work.set_current(values),
        Ask::Jacobian => work.set_jacobian(values),
        Ask::TimePartial | Ask::FirstProbe => work.set_time_partial(values),
        Ask::SecondProbe | Ask::Column(_) => work.set_probe_rhs(values),
        Ask::Stage(i) => work.set_rhs_stage(i, values),
    }
}

// The derivative at the accepted state is there, and finite.
#[tactic(auto, using(attempts::proofs::Links::or_true), unfolding(attempts::specs::Marks::noting, attempts::specs::Marks::with_derivative, attempts::specs::Calls::moved_stop, attempts::specs::Calls::moved_marks, attempts::specs::Attempt::on_marks, attempts::specs::Marks::with_caches))]
fn derivative_done(given: &Given, work: &mut Work, pivots: &mut [usize], memo: &Memo) -> Moved
    requires { Sizes given.now work.old × (length pivots.old ≡ given.now.setting.n) }
    ensures { MovesFrom memo.now result work.old work.new pivots.old pivots.new (λ x. differentiate (given_by given.now) (on_marks (noting with_derivative) x)) }
{
    let memo = Memo {
        derivative_valid: true,
        ..*memo
    };
    Moved {
        derivative: true,
        ..differentiate(given, work, pivots, &memo)
    }
}

// That at the first time probe is.
#[tactic(auto, unfolding(attempts::specs::Attempt::choose, attempts::specs::Calls::halt_stop, attempts::specs::Marks::second_probe, attempts::specs::Calls::moved_stop, attempts::specs::Calls::moved_marks, attempts::specs::Attempt::on_marks, attempts::specs::Marks::with_caches))]
fn first_probe_done(given: &Given, work: &mut Work, pivots: &mut [usize], memo: &Memo) -> Moved
    requires { Sizes given.now work.old × (length pivots.old ≡ given.now.setting.n) }
    ensures { MovesFrom memo.now result work.old work.new pivots.old pivots.new
        (λ x. choose x.marks.memo.two_probes (ask_rhs Ask.SecondProbe x.marks.memo.second_probe x) (combine (given_by given.now) x)) }
{
    match memo.second_probe() {
        Some(second) => Moved::nothing(Ok(Halt::SecondProbe(second))),
        None => partials::combine(given, work, pivots, memo),
    }
}

// That at the probe of column k is.
#[tactic(auto, unfolding(attempts::specs::Attempt::on_work))]
fn column_done(given: &Given, work: &mut Work, k: usize) -> Result<Halt, Refusal>
    requires { Sizes given.now work.old × (k < given.now.setting.n) }
    ensures { Halts result work.old work.new
        (λ x. next_column (given_by given.now) (k + 1) (on_work (with_column given.now.setting.n k (rise (el given.now.state.now k))) x)) }
{
    differentiation::set_column(work, k, differentiation::rise(given.state[k]));
    partials::next_column(given, work, k + 1)
}

// Goes on with what was asked for. Each arm that has much to hold is a function of its own: what a function
// holds in any of its arms is cleared as it is entered.
#[tactic(auto, using(crate::proofs::Supplies::read_back, crate::proofs::Supplies::rows), unfolding(stepping::specs::Refusals::first_of, attempts::specs::Attempt::resume, attempts::specs::Attempt::written, attempts::specs::Attempt::place, attempts::specs::Attempt::wanted, attempts::specs::Attempt::on_work, attempts::specs::Attempt::partial_done, attempts::specs::Attempt::jacobian_done, attempts::specs::Attempt::provided, attempts::specs::Attempt::choose, attempts::specs::Calls::halt_stop, attempts::specs::Calls::moved_stop, attempts::specs::Calls::moved_marks, attempts::specs::Attempt::on_marks, attempts::specs::Marks::with_caches))]
fn resume_on(
    given: &Given,
    work: &mut Work,
    pivots: &mut [usize],
    memo: &Memo,
    ask: Ask,
    values: &[f64],
) -> Moved
    requires { Sizes given.now work.old × (length pivots.old ≡ given.now.setting.n) × Answers given.now.setting pivots.old ask (length values.now) }
    ensures { MovesFrom memo.now result work.old work.new pivots.old pivots.new (resume (given_by given.now) ask values.now) }
{
    store(work, ask, values);
    if let Err(refusal) = stepping::finite(values) {
        return Moved::nothing(Err(refusal));
    }
    match ask {
        Ask::Derivative => derivative_done(given, work, pivots, memo),
        Ask::Jacobian => Moved::nothing(partials::ask_partial(given)),
        Ask::TimePartial => partials::differentiated(given, work, pivots),
        Ask::FirstProbe => first_probe_done(given, work, pivots, memo),
        Ask::SecondProbe => partials::combine(given, work, pivots, memo),
        Ask::Column(k) => Moved::nothing(column_done(given, work, k)),
        Ask::Stage(i) => given.solve_stage(work, pivots, i),
    }
}

// start and resume each make the work for one call: a function that hands it out would need a clause on what is
// left in it.
pub fn resume(
    given: &Given,
    work: &mut [f64],
    pivots: &mut [usize],
    memo: &Memo,
    ask: Ask,
    values: &[f64],
) -> Moved
    requires { Room given.now.setting.n given.now.setting.s (length work.old) × Fits given.now × (length pivots.old ≡ given.now.setting.n)
        × Answers given.now.setting pivots.old ask (length values.now) }
    ensures { (c : Counted) → moved_stop result (scratch (marked memo.now c) work.new pivots.new)
        ≡ resume (given_by given.now) ask values.now (scratch (marked memo.now c) work.old pivots.old) }
{
    let layout = Layout {
        n: given.setting.n,
        s: given.setting.s,
    };
    let mut work = Work {
        cells: work,
        layout,
    };
    resume_on(given, &mut work, pivots, memo, ask, values)
}
