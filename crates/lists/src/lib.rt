// Lists of calls: one function that runs them, and theorems about all of them.
#![tactic(auto)]

ghost use Rattle.std.specs.Prelude.{◌≡◌};
ghost use Rattle.rosenbrock.specs.Outcomes.{system_of, next_of};
ghost use Rattle.lists.specs.Run.{after};
ghost use Rattle.lists.specs.Orders.{last_of, calls_of};
ghost use Rattle.lists.specs.Accepting.{OthersLeaveIt, AcceptTakesTheCandidate, ResetTakesBoth};
ghost use Rattle.lists.specs.Caching.{EveryCache};
ghost use Rattle.lists.specs.Claim.{EveryList, AlwaysFits, TailUntouched, ReadersChangeNothing};
ghost use Rattle.lists.specs.Counting.{EveryCounter};
ghost use Rattle.lists.specs.Finite.{AlwaysFinite};
ghost use Rattle.lists.specs.Refused.{EveryRefusal};
ghost use Rattle.lists.specs.Telling.{ReadersTellTheAnswer};

use dispatch::Order;
use rosenbrock::Outcome;

// A call with the values lent beside it: those of a supply, of a derivative or of a new state.
#[derive(Clone, Copy)]
pub struct Entry<'a> {
    pub order: Order,
    pub values: &'a [f64],
}

// Makes the calls one after the other, each on what the one before it left, from what the call before
// them handed back; it hands back what the last of them did.
pub fn run(
    outcome: Outcome,
    entries: &[Entry],
    file: &[u8],
    state: &mut [f64],
    work: &mut [f64],
    pivots: &mut [usize],
) -> Outcome
    ensures last_is { next_of result state.new work.new pivots.new
        ≡ last_of (next_of outcome state.old work.old pivots.old) (calls_of file.now entries.now) }
    ensures all_made { system_of result.stepper state.new work.new pivots.new
        ≡ after (system_of outcome.stepper state.old work.old pivots.old) (calls_of file.now entries.now) }
{
    let mut last = outcome;
    for entry in entries {
        last = dispatch::dispatch(
            last.stepper,
            entry.order,
            file,
            entry.values,
            state,
            work,
            pivots,
        );
    }
    last
}

// What holds of every list of calls: it does nothing, and its contract is the theorem.
pub fn every_list()
    ensures by_the_book { EveryList }
    ensures always_fits { AlwaysFits }
    ensures tail_untouched { TailUntouched }
    ensures readers_change_nothing { ReadersChangeNothing }
{}

// When the accepted time and state change.
pub fn accepted_changes()
    ensures others_leave_it { OthersLeaveIt }
    ensures accept_takes_the_candidate { AcceptTakesTheCandidate }
    ensures reset_takes_both { ResetTakesBoth }
{}

// What a refused call leaves.
pub fn every_refusal()
    ensures changes_nothing_or_closes { EveryRefusal }
{}

// What the readers tell after a call that shows a step view, asks, or is done.
pub fn readers_tell()
    ensures tell_the_answer { ReadersTellTheAnswer }
{}

// What the counters tell after every list of calls, and what is cached then.
pub fn every_counter()
    ensures counts { EveryCounter }
    ensures caches { EveryCache }
{}

// What of the memory is finite after every list of calls.
pub fn always_finite()
    ensures state_and_candidate { AlwaysFinite }
{}
