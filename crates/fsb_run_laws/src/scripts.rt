//! Laws over an agent's place in its script, one clock on: no code.

ghost use Rattle.std.specs.Prelude.{◌≡◌, ◌<◌, ◌+◌, ◌||◌, ℕ, true, false, Some, length, nat_lt};
ghost use Rattle.fsb_count.specs.Options.{is_some_and};
ghost use Rattle.fsb_timely.specs.Completions.{is_arrival};
ghost use Rattle.fsb_timely.specs.Hits.{is_hit};
ghost use Rattle.fsb_timely.specs.Past.{Past};
ghost use Rattle.fsb_timely.specs.Runs.{Run, past_of};
ghost use Rattle.fsb_timely.specs.Scripts.{completes_at, idle_clocks, idle_start, is_idling, items_of, next_number, number_after};
ghost use Rattle.fsb_run_laws.specs.Reaches.{Reaches};
ghost use Rattle.fsb_run_laws.specs.RunSteps.{next_behind};

/// An agent of a timely run that completes its next item at a clock has as its next one the first
/// item behind it that is not idle. (Without a completion the next item stays, as fsb_timely's
/// scripts_step says.)
pub fn next_items_step()
    ensures { (r : Run) (a n number : ℕ) → Reaches r (n + 1) →
        next_number (past_of r) a n ≡ Some number → completes_at (past_of r) a n ≡ true →
        next_number (past_of r) a (n + 1)
        ≡ next_behind (items_of (past_of r) a) number (length (items_of (past_of r) a)) }
{}

/// An agent idles from the clock behind its completion on, for the clocks of the idle items between
/// the item that it completed and its next one; where it completes nothing, from the same clock on
/// and behind the same item as before.
pub fn idling_starts()
    ensures start { (r : Run) (a n number : ℕ) → Reaches r (n + 1) →
        next_number (past_of r) a n ≡ Some number → completes_at (past_of r) a n ≡ true →
        (idle_start (past_of r) a (n + 1) ≡ n + 1)
        × (number_after (past_of r) a (n + 1) ≡ number + 1) }
    ensures kept_start { (p : Past) (a n : ℕ) → completes_at p a n ≡ false →
        idle_start p a (n + 1) ≡ idle_start p a n }
    ensures kept_number { (p : Past) (a n : ℕ) → completes_at p a n ≡ false →
        number_after p a (n + 1) ≡ number_after p a n }
    ensures idling { (r : Run) (a n number : ℕ) → Reaches r (n + 1) →
        next_number (past_of r) a n ≡ Some number → completes_at (past_of r) a n ≡ true →
        is_idling (past_of r) a (n + 1)
        ≡ is_some_and
        (next_behind (items_of (past_of r) a) number (length (items_of (past_of r) a)))
        (λ m. nat_lt (n + 1) (n + 1 + idle_clocks (items_of (past_of r) a) (number + 1) m)) }
    ensures kept_idling { (p : Past) (a n : ℕ) → completes_at p a n ≡ false →
        is_idling p a (n + 1)
        ≡ is_some_and (next_number p a n)
        (λ m. nat_lt (n + 1)
        (idle_start p a n + idle_clocks (items_of p a) (number_after p a n) m)) }
{}

/// An agent of a timely run has an entry at a clock exactly where it has a hit or an arrival there.
pub fn completions_have_clocks()
    ensures { (r : Run) (a n : ℕ) → Reaches r (n + 1) → a < 4 →
        completes_at (past_of r) a n ≡ (is_hit (past_of r) a n || is_arrival (past_of r) a n) }
{}
