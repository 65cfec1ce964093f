// The two readers that no export has: config and state.
use crate::AdaptiveController;
use settings::ControllerConfig;

fn made() -> AdaptiveController {
    AdaptiveController::new(ControllerConfig::pi(0.5, 0.25), -2.0).value
}

#[test]
fn settings_and_state_are_read(rt: HostRuntime) {
    let controller = made();
    let config = controller.config();
    assert!(rt; config.answer.is_ok());
    assert!(rt; config.value.beta[0] == 0.5);
    assert!(rt; config.value.beta[1] == 0.25);
    assert!(rt; config.value.beta[2] == 0.0);
    assert!(rt; config.value.accept_equal);
    let state = controller.state();
    assert!(rt; state.answer.is_ok());
    assert!(rt; state.value.next_step == -2.0);
    assert!(rt; state.value.accepted_errors[0] == 1.0);
    assert!(rt; state.value.consecutive_rejections == 0);
    assert!(rt; !state.value.rejected_since_acceptance);
}

// They are refused, and hand back what stands there all the same.
#[test]
fn a_past_error_of_0_is_refused(rt: HostRuntime) {
    let mut controller = made();
    controller.state.accepted_errors[1] = 0.0;
    let config = controller.config();
    assert!(rt; stepping::number_of(config.answer) == 7);
    assert!(rt; config.value.beta[0] == 0.5);
    let state = controller.state();
    assert!(rt; stepping::number_of(state.answer) == 7);
    assert!(rt; state.value.accepted_errors[1] == 0.0);
    assert!(rt; state.value.next_step == -2.0);
}
