// attempt on a stepper record that is lent by pointer, for a host in another language, under C's
// calling convention. No logic of its own. It stands apart from the other calls on a lent record, so
// that the compiler need not share the tests and the stages between two callers.
#![tactic(auto)]

ghost use Rattle.std.specs.Prelude.{◌≡◌};
ghost use Rattle.rosenbrock.specs.Stepper.{stepped};
ghost use Rattle.rosenbrock.specs.Stepper as call;
ghost use Rattle.rosenbrock.specs.Outcomes.{system_of};
ghost use Rattle.in_place_host.specs.Handed.{handed, as_numbers};

use in_place_host::CallAnswer;
use rosenbrock::RosenbrockStepper;

#[unsafe(no_mangle)]
#[tactic(auto, using(in_place_host::proofs::Steps::answer_handed))]
pub extern "C" fn wiqhano_stepper_attempt_in_place(
    stepper: &mut RosenbrockStepper,
    file: &[u8],
    step: f64,
    host_jacobian: bool,
    host_time_partial: bool,
    state: &[f64],
    work: &mut [f64],
    pivots: &mut [usize],
) -> CallAnswer
    ensures { handed result (system_of stepper.new state.now work.new pivots.new)
        ≡ as_numbers (stepped (call.attempt file.now step host_jacobian host_time_partial) (system_of stepper.old state.now work.old pivots.old)) }
{
    let answer = stepper.attempt_in_place(
        file,
        step,
        host_jacobian,
        host_time_partial,
        state,
        work,
        pivots,
    );
    answer.into()
}
