// The Jacobian and the time partial by differences, on the lent work.
#![tactic(auto)]

ghost use Rattle.std.specs.Prelude.{◌≡◌, ◌+◌, ◌*◌, ◌≤◌, ◌<◌, is_some, unwrap_or, length};
ghost use Rattle.float.specs.Operators.{𝟎};
ghost use Rattle.stages.specs.Lent.{Becomes};
ghost use Rattle.differentiation.specs.Differences.{risen, rise};
ghost use Rattle.differentiation.specs.Memory.{with_probe_state, with_column, with_partial};

use stages::{Layout, Work};

#[tactic(auto, unfolding(crate::specs::Differences::risen))]
fn risen(y: f64) -> f64
    ensures { result ≡ risen y }
{
    y + float::SQRT_EPSILON * float::max(float::abs(y), 1.0)
}

// What rounding left of the rise.
#[tactic(auto, unfolding(crate::specs::Differences::rise))]
pub fn rise(y: f64) -> f64
    ensures { result ≡ rise y }
{
    risen(y) - y
}

// The state with component k risen. This function and the two below ask no more of the work than they
// write and read, where the lent work as a struct asks for all its parts. k says where to store: a caller that
// cut the slice first would prove the same bound.
#[tactic(auto, unfolding(crate::specs::Memory::with_probe_state, crate::specs::Differences::probe_state))]
pub fn probe_state(work: &mut [f64], state: &[f64], n: usize, k: usize)
    requires { (8 * n ≤ length work.old) × (length state.now ≡ n) × (k < n) × (n ≤ 32) }
    ensures { work.new ≡ with_probe_state n state.now k work.old }
{
    let start = Layout { n, s: 0 }.probe_state().start;
    vector::put(work, start, state);
    work[start + k] = risen(state[k]);
}

// Column k of the Jacobian, from the derivative at the probe and the one at the state.
#[tactic(auto, using(vector::proofs::Loops::storing, crate::proofs::Loops::get_or_column_before), unfolding(crate::specs::Memory::with_column, crate::specs::Differences::quotient))]
pub fn column(work: &mut [f64], n: usize, k: usize, by: f64)
    requires { (8 * n + n * n ≤ length work.old) × (k < n) × (n ≤ 32) }
    ensures { work.new ≡ with_column n k by work.old }
{
    let layout = Layout { n, s: 0 };
    let to = layout.jacobian().start;
    let probed = layout.probe_rhs().start;
    let current = layout.current().start;
    for row in 0..n {
        work[to + (row * n + k)] = (work[probed + row] - work[current + row]) / by;
    }
}

// The time partial from one probe, or from two where there is a second distance.
#[tactic(auto, using(vector::proofs::Loops::storing, crate::proofs::Loops::second_there), unfolding(crate::specs::Memory::with_partial))]
pub fn time_partial(work: &mut [f64], n: usize, d1: f64, d2: Option<f64>)
    requires { (8 * n ≤ length work.old) × (n ≤ 32) }
    ensures { work.new ≡ with_partial n (is_some d2) d1 (unwrap_or d2 𝟎) work.old }
{
    let layout = Layout { n, s: 0 };
    let first = layout.time_partial().start;
    let current = layout.current().start;
    let second = layout.probe_rhs().start;
    for k in 0..n {
        let probed = d2.and(Some(work[second + k]));
        work[first + k] = time_difference::partial(
            work[current + k],
            work[first + k],
            probed,
            d1,
            d2,
        );
    }
}

// The same on the lent work as a struct, whose layout stays: else each caller would have to prove that.
pub fn set_probe_state(work: &mut Work, state: &[f64], k: usize)
    requires lengths { length state.now ≡ work.old.layout.n }
    requires inside { k < work.old.layout.n }
    ensures { Becomes work.old work.new (λ l. with_probe_state l.n state.now k) }
{
    probe_state(work.cells, state, work.layout.n, k);
}

pub fn set_column(work: &mut Work, k: usize, by: f64)
    requires { k < work.old.layout.n }
    ensures { Becomes work.old work.new (λ l. with_column l.n k by) }
{
    column(work.cells, work.layout.n, k, by);
}

pub fn set_time_partial(work: &mut Work, d1: f64, d2: Option<f64>)
    ensures { Becomes work.old work.new (λ l. with_partial l.n (is_some d2) d1 (unwrap_or d2 𝟎)) }
{
    time_partial(work.cells, work.layout.n, d1, d2);
}
