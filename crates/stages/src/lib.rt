// The lent work of a stepper, and the stages of a Rosenbrock method on it.
#![tactic(auto)]

mod layout;
mod work;

pub use layout::Layout;
pub use work::Work;
