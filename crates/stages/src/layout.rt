// Where each part of the lent work lies: eight vectors, two matrices, and two rows of stages, one after
// the other.

ghost use Rattle.std.specs.Prelude.{◌≡◌, ◌*◌, ◌<◌, ◌≤◌};
ghost use Rattle.stages.specs.Layout.{Sizes, Spans, candidate_at, error_at, stage_state_at, current_at, time_partial_at, probe_state_at, probe_rhs_at, linear_rhs_at, jacobian_at, factors_at, stages_at, stage_at, rhs_stages_at, rhs_stage_at};

use std::ops::Range;

// The parts of the work of n components and s stages.
#[derive(Clone, Copy)]
pub struct Layout {
    pub n: usize,
    pub s: usize,
    ghost sizes: { Sizes n s },
}

impl Layout {
    // Vector k of the eight.
    fn vector(self, k: usize) -> Range<usize>
        requires { k ≤ 7 }
        ensures { Spans result (k * self.n) self.n }
    {
        let start = k * self.n;
        start..start + self.n
    }

    pub fn candidate(self) -> Range<usize>
        ensures { Spans result (candidate_at self.n) self.n }
    {
        self.vector(0)
    }

    pub fn error(self) -> Range<usize>
        ensures { Spans result (error_at self.n) self.n }
    {
        self.vector(1)
    }

    pub fn stage_state(self) -> Range<usize>
        ensures { Spans result (stage_state_at self.n) self.n }
    {
        self.vector(2)
    }

    // The derivative at the accepted time and state.
    pub fn current(self) -> Range<usize>
        ensures { Spans result (current_at self.n) self.n }
    {
        self.vector(3)
    }

    pub fn time_partial(self) -> Range<usize>
        ensures { Spans result (time_partial_at self.n) self.n }
    {
        self.vector(4)
    }

    pub fn probe_state(self) -> Range<usize>
        ensures { Spans result (probe_state_at self.n) self.n }
    {
        self.vector(5)
    }

    pub fn probe_rhs(self) -> Range<usize>
        ensures { Spans result (probe_rhs_at self.n) self.n }
    {
        self.vector(6)
    }

    pub fn linear_rhs(self) -> Range<usize>
        ensures { Spans result (linear_rhs_at self.n) self.n }
    {
        self.vector(7)
    }

    // From here on each part starts where the one before it ends, or at a row in it: a function for that
    // would be handed both, and say no more.
    pub fn jacobian(self) -> Range<usize>
        ensures { Spans result (jacobian_at self.n) (self.n * self.n) }
    {
        let start = 8 * self.n;
        start..start + self.n * self.n
    }

    pub fn factors(self) -> Range<usize>
        ensures { Spans result (factors_at self.n) (self.n * self.n) }
    {
        let start = self.jacobian().end;
        start..start + self.n * self.n
    }

    // The stages as they are solved.
    pub fn stages(self) -> Range<usize>
        ensures { Spans result (stages_at self.n) (self.s * self.n) }
    {
        let start = self.factors().end;
        start..start + self.s * self.n
    }

    pub fn stage(self, i: usize) -> Range<usize>
        requires { i < self.s }
        ensures { Spans result (stage_at self.n i) self.n }
    {
        let start = self.stages().start + i * self.n;
        start..start + self.n
    }

    // The derivatives at the stages.
    pub fn rhs_stages(self) -> Range<usize>
        ensures { Spans result (rhs_stages_at self.n self.s) (self.s * self.n) }
    {
        let start = self.stages().end;
        start..start + self.s * self.n
    }

    pub fn rhs_stage(self, i: usize) -> Range<usize>
        requires { i < self.s }
        ensures { Spans result (rhs_stage_at self.n self.s i) self.n }
    {
        let start = self.rhs_stages().start + i * self.n;
        start..start + self.n
    }
}
