//! The laws of a line. Each is the contract of a function that does nothing.

ghost use Rattle.std.specs.Prelude.{◌≡◌, ℕ, IsFalse, List, []};
ghost use Rattle.fsb_line.specs.Coherence.{IsCoherent, Ordered, Owes, Valued};
ghost use Rattle.fsb_line.specs.Events.{Event, IsDecidedEnd, May, after};
ghost use Rattle.fsb_line.specs.History.{
  is_alone_since,
  is_dirty_since,
  is_held_since,
  state_by,
};
ghost use Rattle.fsb_line.specs.Line.{Bytes, MemoryLine, SameFields, has_copy, unheld};
ghost use Rattle.fsb_line.specs.LineRuns.{MayRun, OwesAll, stored_by_all, run};

/// A line that nobody holds or asks for is in order, and its bytes are where they belong.
pub fn starts_in_order()
    ensures order { (bytes : Bytes) → Ordered (unheld bytes) }
    ensures values { (bytes : Bytes) → Valued (unheld bytes) }
{}

/// Every event that may happen keeps the order of a line, whatever its bytes are.
#[tactic(auto, using(crate::proofs::Theorem::ordered_after))]
pub fn event_keeps_order()
    ensures { (x : MemoryLine) (e : Event) → Ordered x → May x e → Ordered (after x e) }
{}

/// Every event that may happen keeps the bytes where they belong.
#[tactic(auto, using(crate::proofs::Theorem::valued_after))]
pub fn event_keeps_values()
    ensures { (x : MemoryLine) (e : Event) → Ordered x → Valued x → May x e → Valued (after x e) }
{}

/// Every event that may happen meets what it owes: an access uses the line's bytes, a store is made
/// by an agent that is alone, data put on the bus are the line's bytes, and so are those that an end
/// brings.
#[tactic(auto, using(crate::proofs::Theorem::owes_met))]
pub fn event_meets_what_it_owes()
    ensures { (x : MemoryLine) (e : Event) → Ordered x → Valued x → May x e → Owes x e }
{}

/// A line in order with its bytes is coherent.
#[tactic(auto, using(crate::proofs::Theorem::coherent))]
pub fn order_and_values_are_coherence()
    ensures { (x : MemoryLine) → Ordered x → Valued x → IsCoherent x }
{}

/// Over every list of events that may happen, from a line that nobody holds, each event meets what
/// it owes.
#[tactic(auto, using(crate::proofs::Theorem::owes_from_unheld))]
pub fn run_meets_what_it_owes()
    ensures { (bytes : Bytes) (es : List Event) → MayRun (unheld bytes) es →
        OwesAll (unheld bytes) es }
{}

/// And after every such list the line is coherent: one writer; ready copies, the memory and the bus
/// have the line's bytes; and nobody is alone with a pending line.
#[tactic(auto, using(crate::proofs::Theorem::coherent_from_unheld))]
pub fn run_is_coherent()
    ensures { (bytes : Bytes) (es : List Event) →
        MayRun (unheld bytes) es → IsCoherent (run (unheld bytes) es) }
{}

/// The line in the one flat memory is the first bytes with the stores of every event made in turn.
#[tactic(auto, using(crate::proofs::Flat::flat))]
pub fn flat_memory_replays_the_stores()
    ensures { (x : MemoryLine) (es : List Event) → (run x es).now ≡ stored_by_all x es x.now }
{}

/// Every snoop end that may happen comes out as `settled_as` decides.
#[tactic(auto, using(crate::proofs::Theorem::snoop_end_decided))]
pub fn snoop_ends_come_out_as_decided()
    ensures { (x : MemoryLine) (e : Event) → May x e → IsDecidedEnd x e }
{}

/// After an event an agent that has no bytes of the line has none in the record either, so the
/// record can be read off a cache and its fills.
#[tactic(auto, using(crate::proofs::Flat::without))]
pub fn copies_stand_only_where_agents_have_them()
    ensures { (x : MemoryLine) (e : Event) (a : ℕ) →
        IsFalse (has_copy (after x e) a) → (after x e).copy a ≡ [] }
{}

/// A line is what its fields are: whoever reads a record off caches and queues shows it field by
/// field, and agent by agent.
#[tactic(auto, using(crate::proofs::Flat::same_line))]
pub fn lines_are_their_fields()
    ensures { (x y : MemoryLine) → SameFields x y → x ≡ y }
{}

/// The state of an agent is told by what happened: it holds the line since a grant with no loss
/// after it; has it alone since a grant for itself, with no loss and no snoop end of another's
/// request after it; and has it dirty since a store or a grant to own it, with none of these after
/// it.
#[tactic(auto, using(crate::proofs::Since::state_since))]
pub fn state_is_told_by_events()
    ensures { (bytes : Bytes) (es : List Event) (a : ℕ) → MayRun (unheld bytes) es →
        (run (unheld bytes) es).state a
        ≡ state_by
        (is_held_since a (unheld bytes) es)
        (is_alone_since a (unheld bytes) es)
        (is_dirty_since a (unheld bytes) es) }
{}
