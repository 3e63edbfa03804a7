//! The laws of the queue's next clock, for the loop that drives it: small functions with no code, whose contracts they are.

ghost use Rattle.std.specs.Prelude.{ℕ, List, [], ◌∷◌, ◌++◌, Option};
ghost use Rattle.fsb_signal.specs.declared.sample.Sample.{Sample};
ghost use Rattle.fsb_trace.specs.declared.outcome.Outcome.{Outcome};
ghost use Rattle.fsb_trace.specs.At.{Trace};
ghost use Rattle.fsb_queue.specs.declared.entry.Entry.{Entry};
ghost use Rattle.fsb_phase.specs.declared.phases.Phases.{Phases};
ghost use Rattle.fsb_phase.specs.FitQueue.{HoldsInFlight};
ghost use Rattle.fsb_phase.specs.Phases.{Stands, MayTake};
ghost use Rattle.fsb_flight.specs.GoesOn.{goes_on, TakesTurn, Rising, IsLater};
ghost use Rattle.fsb_flight.specs.Steps.{begun_list};

/// Where the phases may take a sample, the queue after it holds the requests in flight of the longer history: the entry
/// whose snoop ends has its outcome, those that end or are cancelled are gone, and one that begins is behind the others.
pub fn queue_goes_on()
    ensures { (p : Phases) (h : Trace) (clock : ℕ) (x : Sample) (queue new : List Entry)
        (turns later : List ℕ) (outcome : Outcome) →
        Stands p h → MayTake clock x queue turns h → TakesTurn h x turns later outcome new →
        HoldsInFlight (goes_on h x outcome queue ++ new) later (h ++ x ∷ []) }
{}

/// The numbers of the entries rise again after a clock, where the entry that begins has the greatest.
pub fn numbers_go_on()
    ensures { (h : Trace) (x : Sample) (outcome : Outcome) (begun : Option Entry)
        (queue : List Entry) →
        Rising queue → IsLater begun queue →
        Rising (goes_on h x outcome queue ++ begun_list begun) }
{}
