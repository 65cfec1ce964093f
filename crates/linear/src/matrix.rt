// A matrix by rows, factored in place. The names and the order of the operations are those of linear.rs.

ghost use Rattle.std.specs.Prelude.{◌≡◌, cond, ◌&&◌, ◌*◌, ◌<◌, ◌≤◌, eqb, ltb, length, Ok, Err};
ghost use Rattle.float.specs.Operators.{◌⊖◌, ◌⊗◌};
ghost use Rattle.float.specs.Methods.{abs};
ghost use Rattle.vector.specs.Matrices.{entry};
ghost use Rattle.stepping.specs.declared.Refusal.TheVariants.{Singular};
ghost use Rattle.linear.specs.Calls.{outcome, elimination_of};
ghost use Rattle.linear.specs.Elimination.{pivot_row, interchange, elimination_step, stepped, stops};

use crate::unusable;
use stepping::Refusal;

// The row of a column's pivot, and its magnitude.
#[derive(Clone, Copy)]
pub struct Pivot {
    pub row: usize,
    pub magnitude: f64,
}

// n by n entries that are lent. A row or column is a number, below n in each clause: a type for it would be
// made in each turn.
#[derive(Drop)]
pub struct Matrix<'a> {
    pub entries: &'a mut [f64],
    pub n: usize,
    ghost small: { n ≤ 32 },
    ghost square: { length entries.now ≡ n * n },
}

impl Matrix<'_> {
    ghost use Rattle.linear.specs.Lent.{Same, Entries};

    // The pivot of a column, from the diagonal down.
    #[inline(always)]
    fn column_pivot(&self, column: usize) -> Pivot
        requires { column < self.now.n }
        ensures { (result.row ≡ pivot_row self.now.n self.now.entries.now column) × (result.magnitude ≡ abs (entry self.now.n self.now.entries.now result.row column)) }
    {
        let n = self.n;
        let mut pivot = Pivot {
            row: column,
            magnitude: float::abs(self.entries[column * n + column]),
        };
        for row in column + 1..n {
            let magnitude = float::abs(self.entries[row * n + column]);
            if magnitude > pivot.magnitude {
                pivot = Pivot { row, magnitude };
            }
        }
        pivot
    }

    // Interchanges rows k and p.
    #[inline(always)]
    fn interchange_rows(&mut self, k: usize, p: usize)
        requires { (k < self.old.n) × (p < self.old.n) }
        ensures { Entries self.old self.new (λ a i. a (interchange k p i)) }
    {
        let n = self.n;
        let entries = &mut *self.entries;
        if p != k {
            for column in 0..n {
                entries.swap(k * n + column, p * n + column);
            }
        }
    }

    // Takes the multiple of row k from another row, right of column k.
    #[inline(always)]
    fn subtract_row(&mut self, k: usize, row: usize, factor: f64)
        requires { (k < row) × (row < self.old.n) }
        ensures { Entries self.old self.new (λ a i j. cond (ltb k j && eqb i row) (a row j ⊖ factor ⊗ a k j) (a i j)) }
    {
        let n = self.n;
        let above = k * n;
        let below = row * n;
        let entries = &mut *self.entries;
        for column in k + 1..n {
            entries[below + column] -= factor * entries[above + column];
        }
    }

    // Step k in each row below row k.
    #[inline(always)]
    fn eliminate(&mut self, k: usize)
        requires { k < self.old.n }
        ensures { Entries self.old self.new (elimination_step k) }
    {
        let n = self.n;
        let pivot = self.entries[k * n + k];
        for row in k + 1..n {
            let at = row * n + k;
            let factor = self.entries[at] / pivot;
            self.entries[at] = factor;
            self.subtract_row(k, row, factor);
        }
    }

    // Step k with the pivot of its column, whose row it answers, unless that is not above the threshold.
    #[inline(always)]
    fn column_step(&mut self, k: usize, threshold: f64) -> Result<usize, Refusal>
        requires { k < self.old.n }
        ensures answer { result ≡ cond (stops self.old.n threshold self.old.entries.now k) (Err Singular) (Ok (pivot_row self.old.n self.old.entries.now k)) }
        ensures left { self.new.entries.now
            ≡ cond (stops self.old.n threshold self.old.entries.now k) self.old.entries.now (stepped self.old.n k (pivot_row self.old.n self.old.entries.now k) self.old.entries.now) }
        ensures kept { Same self.old self.new }
    {
        let pivot = self.column_pivot(k);
        if unusable(pivot.magnitude, threshold) {
            return Err(Refusal::Singular);
        }
        self.interchange_rows(k, pivot.row);
        self.eliminate(k);
        Ok(pivot.row)
    }

    // The elimination, with pivots above the threshold, whose rows it lists.
    #[inline(always)]
    pub fn eliminate_columns(&mut self, pivots: &mut [usize], threshold: f64) -> Result<(), Refusal>
        requires { length pivots.old ≡ self.old.n }
        ensures done { outcome result self.new.entries.now pivots.new ≡ elimination_of self.old.n threshold self.old.entries.now pivots.old }
        ensures kept { Same self.old self.new }
    {
        for pivot_column in 0..self.n {
            let pivot_row = self.column_step(pivot_column, threshold)?;
            pivots[pivot_column] = pivot_row;
        }
        Ok(())
    }

    // The same for four columns, each by its number, so that the compiler writes the loops out.
    #[inline(always)]
    pub fn eliminate_four(&mut self, pivots: &mut [usize], threshold: f64) -> Result<(), Refusal>
        requires four { self.old.n ≡ 4 }
        requires pivots { length pivots.old ≡ 4 }
        ensures done { outcome result self.new.entries.now pivots.new ≡ elimination_of self.old.n threshold self.old.entries.now pivots.old }
        ensures kept { Same self.old self.new }
    {
        let first = self.column_step(0, threshold)?;
        pivots[0] = first;
        let second = self.column_step(1, threshold)?;
        pivots[1] = second;
        let third = self.column_step(2, threshold)?;
        pivots[2] = third;
        let fourth = self.column_step(3, threshold)?;
        pivots[3] = fourth;
        Ok(())
    }
}
