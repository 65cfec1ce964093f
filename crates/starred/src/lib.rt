// Ten cases at the edge: one table (specs/), and a function whose contract says that it holds.
#![tactic(auto)]

ghost use Rattle.starred.specs.Table.{Starred};

// Every row of the table holds. There is nothing to run.
pub fn starred()
    ensures { Starred }
{}
