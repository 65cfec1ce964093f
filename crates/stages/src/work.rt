// The lent work, and the stages of a Rosenbrock method on it. The names and the order of the operations
// are those of rosenbrock.rs.

ghost use Rattle.std.specs.Prelude.{◌≡◌, cond, ◌+◌, ◌*◌, ◌≤◌, ◌<◌, ℕ, Float, eqb, length};
ghost use Rattle.float.specs.Operators.{◌⊕◌, ◌⊗◌, ◌⊘◌, 𝟎, 𝟏};
ghost use Rattle.vector.specs.Lists.{el};
ghost use Rattle.vector.specs.Parts.{part, puts};
ghost use Rattle.tableau.specs.Tableau.{coupling_of};
ghost use Rattle.tableau.specs.File.{tableau_of};
ghost use Rattle.stages.specs.Layout.{Room, PivotRows, candidate_at, error_at, stage_state_at, current_at, time_partial_at, probe_state_at, probe_rhs_at, linear_rhs_at, jacobian_at, factors_at, stage_at, rhs_stage_at};
ghost use Rattle.stages.specs.Method.{plus_multiple, plus_multiples, error_weight};
ghost use Rattle.stages.specs.Memory.{component, stage_in, with_stage_state, with_right_hand_side, with_solution, with_stage, with_stage_solved, with_added, with_stage_added, with_matrix, elimination_in, with_factors};

use crate::Layout;
use stepping::Refusal;

// The doubles that are lent for n components and s stages. What a call is handed besides (a stage's index,
// values of a length, the pivots) is asked for by its clauses: a type for it would be made at each call.
#[derive(Drop)]
pub struct Work<'a> {
    pub cells: &'a mut [f64],
    pub layout: Layout,
    ghost room: { Room layout.n layout.s (length cells.now) },
}

impl Work<'_> {
    ghost use Rattle.stages.specs.Lent.{vector_in, matrix_in, Becomes, Stores};

    // ---- its parts, each by its name: by one function of a range each caller would have to prove that the
    // range fits

    pub fn candidate(&self) -> &[f64]
        ensures { result.now ≡ vector_in self.now candidate_at }
    {
        &self.cells[self.layout.candidate()]
    }

    pub fn error(&self) -> &[f64]
        ensures { result.now ≡ vector_in self.now error_at }
    {
        &self.cells[self.layout.error()]
    }

    pub fn stage_state(&self) -> &[f64]
        ensures { result.now ≡ vector_in self.now stage_state_at }
    {
        &self.cells[self.layout.stage_state()]
    }

    pub fn time_partial(&self) -> &[f64]
        ensures { result.now ≡ vector_in self.now time_partial_at }
    {
        &self.cells[self.layout.time_partial()]
    }

    pub fn probe_state(&self) -> &[f64]
        ensures { result.now ≡ vector_in self.now probe_state_at }
    {
        &self.cells[self.layout.probe_state()]
    }

    pub fn jacobian(&self) -> &[f64]
        ensures { result.now ≡ matrix_in self.now jacobian_at }
    {
        &self.cells[self.layout.jacobian()]
    }

    pub fn factors(&self) -> &[f64]
        ensures { result.now ≡ matrix_in self.now factors_at }
    {
        &self.cells[self.layout.factors()]
    }

    pub fn stage(&self, i: usize) -> &[f64]
        requires { i < self.now.layout.s }
        ensures { result.now ≡ vector_in self.now (λ n. stage_at n i) }
    {
        &self.cells[self.layout.stage(i)]
    }

    // ---- its parts, written

    pub fn set_candidate(&mut self, values: &[f64])
        requires { length values.now ≡ self.old.layout.n }
        ensures { Stores self.old self.new candidate_at values.now }
    {
        vector::put(self.cells, self.layout.candidate().start, values);
    }

    pub fn clear_error(&mut self)
        ensures { Becomes self.old self.new (λ l w. puts w (error_at l.n) (λ k. 𝟎) l.n) }
    {
        self.cells[self.layout.error()].fill(0.0);
    }

    // The derivative at the accepted time and state.
    pub fn set_current(&mut self, values: &[f64])
        requires { length values.now ≡ self.old.layout.n }
        ensures { Stores self.old self.new current_at values.now }
    {
        vector::put(self.cells, self.layout.current().start, values);
    }

    pub fn set_time_partial(&mut self, values: &[f64])
        requires { length values.now ≡ self.old.layout.n }
        ensures { Stores self.old self.new time_partial_at values.now }
    {
        vector::put(self.cells, self.layout.time_partial().start, values);
    }

    pub fn set_probe_rhs(&mut self, values: &[f64])
        requires { length values.now ≡ self.old.layout.n }
        ensures { Stores self.old self.new probe_rhs_at values.now }
    {
        vector::put(self.cells, self.layout.probe_rhs().start, values);
    }

    pub fn set_jacobian(&mut self, values: &[f64])
        requires { length values.now ≡ self.old.layout.n * self.old.layout.n }
        ensures { Stores self.old self.new jacobian_at values.now }
    {
        vector::put(self.cells, self.layout.jacobian().start, values);
    }

    // The derivative at stage i.
    pub fn set_rhs_stage(&mut self, i: usize, values: &[f64])
        requires stage { i < self.old.layout.s }
        requires lengths { length values.now ≡ self.old.layout.n }
        ensures { Stores self.old self.new (λ n. rhs_stage_at n self.old.layout.s i) values.now }
    {
        vector::put(self.cells, self.layout.rhs_stage(i).start, values);
    }

    // The derivative at the accepted time and state is that of stage 0.
    #[tactic(auto, using(vector::proofs::Loops::storing))]
    pub fn reuse_current(&mut self)
        requires { 0 < self.old.layout.s }
        ensures { Becomes self.old self.new (λ l w. puts w (rhs_stage_at l.n l.s 0) (component w (current_at l.n)) l.n) }
    {
        let n = self.layout.n;
        let from = self.layout.current().start;
        let to = self.layout.rhs_stage(0).start;
        let cells = &mut *self.cells;
        for k in 0..n {
            cells[to + k] = cells[from + k];
        }
    }

    // ---- the stages

    // Four components by number, in the three long parts below, so that the compiler writes their loops out:
    // an accepted attempt of eight stages then takes 0.94 of the original's time, and 1.07 without it. The work of four
    // is made in each of the three: a function that hands it out would need a clause on what is left in it.

    // Adds c times stage i to the vector at `to`, unless c is a zero.
    #[inline(always)]
    #[tactic(auto, using(vector::proofs::Loops::storing, crate::proofs::Sums::multiple_added))]
    fn add_multiple(&mut self, to: usize, c: f64, i: usize)
        requires inside { to + self.old.layout.n ≤ 8 * self.old.layout.n }
        requires stage { i < self.old.layout.s }
        ensures { Becomes self.old self.new (λ l w. puts w to (λ k. plus_multiple (component w to k) c (stage_in l.n w i k)) l.n) }
    {
        if c == 0.0 {
            return;
        }
        let n = self.layout.n;
        let stage = self.layout.stage(i).start;
        let cells = &mut *self.cells;
        for k in 0..n {
            cells[to + k] += c * cells[stage + k];
        }
    }

    // Adds its multiple of each stage before stage i to the vector at `to`.
    #[inline(always)]
    fn add_stages<F: Fn(usize) -> f64>(&mut self, to: usize, i: usize, coefficient: F)
        requires inside { to + self.old.layout.n ≤ 8 * self.old.layout.n }
        requires stage { i < self.old.layout.s }
        requires callable { (j : ℕ) → j < i → F.pre coefficient j }
        ensures { (c : ℕ → Float) → ((j : ℕ) (r : Float) → j < i → F.post coefficient j r → r ≡ c j)
            → Becomes self.old self.new (λ l w. puts w to (λ k. plus_multiples c (λ j. stage_in l.n w j k) (component w to k) i) l.n) }
    {
        for j in 0..i {
            self.add_multiple(to, coefficient(j), j);
        }
    }

    // The state at which stage i is evaluated.
    #[inline(always)]
    fn fill_stage_state(&mut self, file: &[u8], state: &[f64], i: usize)
        requires stage { i < self.old.layout.s }
        requires lengths { length state.now ≡ self.old.layout.n }
        ensures { Becomes self.old self.new (λ l. with_stage_state l.n (tableau_of file.now) state.now i) }
    {
        let to = self.layout.stage_state().start;
        vector::put(self.cells, to, state);
        let row = tableau::a_row(file, i);
        self.add_stages(to, i, |j| tableau::coefficient(file, row + j));
    }

    // The same; four components go by number.
    #[inline(always)]
    pub fn set_stage_state(&mut self, file: &[u8], state: &[f64], i: usize)
        requires stage { i < self.old.layout.s }
        requires lengths { length state.now ≡ self.old.layout.n }
        ensures { Becomes self.old self.new (λ l. with_stage_state l.n (tableau_of file.now) state.now i) }
    {
        if self.layout.n == 4 {
            let layout = Layout {
                n: 4,
                s: self.layout.s,
            };
            let cells = &mut *self.cells;
            Work { cells, layout }.fill_stage_state(file, state, i);
        } else {
            self.fill_stage_state(file, state, i);
        }
    }

    // The derivative of stage i and c times the time partial.
    #[inline(always)]
    #[tactic(auto, using(vector::proofs::Loops::storing))]
    fn start_right_hand_side(&mut self, i: usize, c: f64)
        requires { i < self.old.layout.s }
        ensures { Becomes self.old self.new (λ l w. puts w (linear_rhs_at l.n) (λ k. component w (rhs_stage_at l.n l.s i) k ⊕ c ⊗ component w (time_partial_at l.n) k) l.n) }
    {
        let n = self.layout.n;
        let to = self.layout.linear_rhs().start;
        let derivative = self.layout.rhs_stage(i).start;
        let partial = self.layout.time_partial().start;
        let cells = &mut *self.cells;
        for k in 0..n {
            cells[to + k] = cells[derivative + k] + c * cells[partial + k];
        }
    }

    // The right-hand side of stage i.
    #[inline(always)]
    fn set_right_hand_side(&mut self, file: &[u8], i: usize, step: f64)
        requires { i < self.old.layout.s }
        ensures { Becomes self.old self.new (λ l. with_right_hand_side l.n l.s (tableau_of file.now) i step) }
    {
        self.start_right_hand_side(i, step * tableau::d(file, i));
        let to = self.layout.linear_rhs().start;
        let row = tableau::coupling_row(file, i);
        self.add_stages(to, i, |j| tableau::coefficient(file, row + j) / step);
    }

    // The system is solved in the place of its right-hand side.
    #[inline(always)]
    fn solve(&mut self, pivots: &[usize])
        requires { PivotRows self.old.layout.n pivots.now }
        ensures { Becomes self.old self.new (λ l. with_solution l.n pivots.now) }
    {
        let n = self.layout.n;
        let rhs = self.layout.linear_rhs();
        let start = self.layout.factors().start;
        let cells = &mut *self.cells;
        let (vectors, factors) = cells.split_at_mut(start);
        linear::solve_factorized(&factors[..n * n], pivots, &mut vectors[rhs], n);
    }

    // Stage i is c times the solution.
    #[inline(always)]
    #[tactic(auto, using(vector::proofs::Loops::storing))]
    fn set_stage(&mut self, i: usize, c: f64)
        requires { i < self.old.layout.s }
        ensures { Becomes self.old self.new (λ l w. puts w (stage_at l.n i) (λ k. c ⊗ component w (linear_rhs_at l.n) k) l.n) }
    {
        let n = self.layout.n;
        let stage = self.layout.stage(i).start;
        let solution = self.layout.linear_rhs().start;
        let cells = &mut *self.cells;
        for k in 0..n {
            cells[stage + k] = c * cells[solution + k];
        }
    }

    // Stage i, from its derivative: its right-hand side is solved and scaled.
    #[inline(always)]
    #[tactic(auto, unfolding(crate::specs::Memory::with_stage_solved, crate::specs::Memory::with_stage, crate::specs::Method::stage_value))]
    fn fill_stage(&mut self, file: &[u8], pivots: &[usize], i: usize, step: f64)
        requires stage { i < self.old.layout.s }
        requires pivots { PivotRows self.old.layout.n pivots.now }
        ensures { Becomes self.old self.new (λ l. with_stage_solved l.n l.s (tableau_of file.now) pivots.now i step) }
    {
        self.set_right_hand_side(file, i, step);
        self.solve(pivots);
        self.set_stage(i, step * tableau::gamma(file));
    }

    // The same; four components go by number.
    pub fn solve_stage(&mut self, file: &[u8], pivots: &[usize], i: usize, step: f64)
        requires stage { i < self.old.layout.s }
        requires pivots { PivotRows self.old.layout.n pivots.now }
        ensures { Becomes self.old self.new (λ l. with_stage_solved l.n l.s (tableau_of file.now) pivots.now i step) }
    {
        if self.layout.n == 4 {
            let layout = Layout {
                n: 4,
                s: self.layout.s,
            };
            let cells = &mut *self.cells;
            Work { cells, layout }.fill_stage(file, pivots, i, step);
        } else {
            self.fill_stage(file, pivots, i, step);
        }
    }

    // Stage i goes into the candidate and the error, with b and btilde that are 0 too.
    #[tactic(auto, using(vector::proofs::Loops::storing, crate::proofs::Sums::get_or_set_before), unfolding(crate::specs::Memory::with_stage_added, crate::specs::Memory::with_added))]
    pub fn add_stage(&mut self, file: &[u8], i: usize)
        requires { i < self.old.layout.s }
        ensures { Becomes self.old self.new (λ l. with_stage_added l.n (tableau_of file.now) i) }
    {
        let n = self.layout.n;
        let candidate = self.layout.candidate().start;
        let error = self.layout.error().start;
        let stage = self.layout.stage(i).start;
        let b = tableau::b(file, i);
        let e = error_weight(file, i);
        let cells = &mut *self.cells;
        for k in 0..n {
            let x = cells[stage + k];
            cells[candidate + k] += b * x;
            cells[error + k] += e * x;
        }
    }

    // The matrix of the stages, where its factors will be.
    #[inline(always)]
    fn fill_matrix(&mut self, file: &[u8], step: f64)
        ensures { Becomes self.old self.new (λ l. with_matrix l.n (tableau_of file.now) step) }
    {
        let n = self.layout.n;
        let from = self.layout.jacobian().start;
        let to = self.layout.factors().start;
        let c = step * tableau::gamma(file);
        let cells = &mut *self.cells;
        for row in 0..n {
            for column in 0..n {
                let k = row * n + column;
                cells[to + k] = unit(row, column) - c * cells[from + k];
            }
        }
    }

    // The same; four components go by number.
    pub fn set_matrix(&mut self, file: &[u8], step: f64)
        ensures { Becomes self.old self.new (λ l. with_matrix l.n (tableau_of file.now) step) }
    {
        if self.layout.n == 4 {
            let layout = Layout {
                n: 4,
                s: self.layout.s,
            };
            let cells = &mut *self.cells;
            Work { cells, layout }.fill_matrix(file, step);
        } else {
            self.fill_matrix(file, step);
        }
    }

    // Factors the matrix in place, and lists the rows of its pivots.
    pub fn factorize(&mut self, pivots: &mut [usize]) -> Result<(), Refusal>
        requires { length pivots.old ≡ self.old.layout.n }
        ensures answer { result ≡ (elimination_in self.old.layout.n pivots.old self.old.cells.now).answer }
        ensures cells { Becomes self.old self.new (λ l. with_factors l.n pivots.old) }
        ensures pivots { pivots.new ≡ (elimination_in self.old.layout.n pivots.old self.old.cells.now).pivots }
    {
        let n = self.layout.n;
        linear::factorize_raw(&mut self.cells[self.layout.factors()], pivots, n)
    }
}

// How much of stage i goes into the error.
#[tactic(auto, unfolding(crate::specs::Method::error_weight))]
fn error_weight(file: &[u8], i: usize) -> f64
    ensures { result ≡ error_weight (tableau_of file.now) i }
{
    if tableau::btilde_present(file) {
        tableau::btilde(file, i)
    } else {
        0.0
    }
}

// An entry of the identity.
fn unit(row: usize, column: usize) -> f64
    ensures { result ≡ cond (eqb row column) 𝟏 𝟎 }
{
    if row == column { 1.0 } else { 0.0 }
}
