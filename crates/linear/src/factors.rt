// The solution of a factored system in place. The names and the order of the operations are those of linear.rs.

ghost use Rattle.std.specs.Prelude.{◌≡◌, ◌+◌, ◌*◌, ◌-◌, ◌<◌, ◌≤◌, ℕ, length, get_or};
ghost use Rattle.vector.specs.Lists.{el};
ghost use Rattle.linear.specs.Substitution.{lower, upper, interchanges, less_products, forward_substitution, back_substitution, solution};

// Interchanges row k with row pivots[k], for each k in turn.
#[inline(always)]
fn interchange_all(pivots: &[usize], x: &mut [f64], n: usize)
    requires { (length pivots.now ≡ n) × (length x.old ≡ n) × ((k : ℕ) → k < n → get_or pivots.now k 0 < n) }
    ensures { x.new ≡ interchanges pivots.now x.old n }
{
    for row in 0..n {
        x.swap(row, pivots[row]);
    }
}

// b less the products of the factors from `at + first` on with x from `first` on, as far as `last`.
#[inline(always)]
#[tactic(auto, using(crate::proofs::Substitutions::less_none, crate::proofs::Substitutions::less_more))]
fn less_products(factors: &[f64], x: &[f64], at: usize, first: usize, last: usize, b: f64) -> f64
    requires { (first ≤ last) × (at + last ≤ length factors.now) × (last ≤ length x.now) }
    ensures { result ≡ less_products (λ j. el factors.now (at + (first + j))) (λ j. el x.now (first + j)) b (last - first) }
{
    let mut value = b;
    for column in first..last {
        value -= factors[at + column] * x[column];
    }
    value
}

// The factors of an n by n matrix, by rows.
#[derive(Drop)]
pub struct Factors<'a> {
    pub entries: &'a [f64],
    pub n: usize,
    ghost some: { 0 < n },
    ghost small: { n ≤ 32 },
    ghost square: { length entries.now ≡ n * n },
}

impl Factors<'_> {
    // Solves L y = b in place, row by row.
    #[inline(always)]
    fn forward_substitution(&self, x: &mut [f64])
        requires { length x.old ≡ self.now.n }
        ensures { x.new ≡ forward_substitution (lower self.now.n self.now.entries.now) (el x.old) self.now.n }
    {
        let n = self.n;
        for row in 1..n {
            x[row] = less_products(self.entries, x, row * n, 0, row, x[row]);
        }
    }

    // Solves U x = y in place, from the last row up.
    #[inline(always)]
    fn back_substitution(&self, x: &mut [f64])
        requires { length x.old ≡ self.now.n }
        ensures { x.new ≡ back_substitution self.now.n (upper self.now.n self.now.entries.now) (el x.old) self.now.n }
    {
        let n = self.n;
        for row in (0..n).rev() {
            let value = less_products(self.entries, x, row * n, row + 1, n, x[row]);
            x[row] = value / self.entries[row * n + row];
        }
    }

    // Solves the system in place.
    #[inline(always)]
    #[tactic(auto, using(crate::proofs::Answers::solution_is))]
    pub fn solve(&self, pivots: &[usize], rhs: &mut [f64])
        requires rhs { length rhs.old ≡ self.now.n }
        requires pivots { length pivots.now ≡ self.now.n }
        requires within { (k : ℕ) → k < self.now.n → get_or pivots.now k 0 < self.now.n }
        ensures { rhs.new ≡ solution self.now.n self.now.entries.now pivots.now rhs.old }
    {
        interchange_all(pivots, rhs, self.n);
        self.forward_substitution(rhs);
        self.back_substitution(rhs);
    }
}
