// The step of a Rosenbrock method, and the theorems that the stepper's attempt is that step. Nothing is run here.
#![tactic(auto)]

ghost use Rattle.method.specs.Conversation.{AttemptIsStep};
ghost use Rattle.method.specs.Turns.{AttemptIsStepOfItsAnswers, AttemptToIsAttempt};

// What holds of every attempt, whatever host answers it, and where f, J and f_t do: it does nothing, and its contract is the theorems.
pub fn every_attempt()
    ensures for_any_host { AttemptIsStepOfItsAnswers }
    ensures to_an_endpoint { AttemptToIsAttempt }
    ensures for_functions { AttemptIsStep }
{}
