//! Laws of the rules of ownership: small functions with no code, whose contracts are the laws.

ghost use Rattle.std.specs.Prelude.{◌≡◌, ℕ, Bool, ◌+◌, ◌-◌, ◌<◌, ◌||◌, true, false, length, List, [], ◌∷◌, Some, None};
ghost use Rattle.std.specs.List.{filter};
ghost use Rattle.fsb_line.specs.declared.purpose.Purpose.{Purpose};
ghost use Rattle.fsb_trace.specs.Agree.{AgreeTo};
ghost use Rattle.fsb_signal.specs.declared.lines.TheConstants.Lines.{DEFER};
ghost use Rattle.fsb_signal.specs.declared.marks.Marks.{Marks};
ghost use Rattle.fsb_trace.specs.At.{Trace};
ghost use Rattle.fsb_trace.specs.Outcome.{is_deferred};
ghost use Rattle.fsb_trace.specs.Snoop.{line_at_snoop_end};
ghost use Rattle.fsb_trace.specs.Verdict.{verdict};
ghost use Rattle.fsb_signal.specs.declared.sample.Sample.{Sample};
ghost use Rattle.fsb_laws.specs.OneMore.{OneMore};
ghost use Rattle.fsb_laws.specs.Orderly.{Orderly};
ghost use Rattle.fsb_owners.specs.Joint.{Joint, every_joint, is_after_snoop_end, reached_by, unheld};
ghost use Rattle.fsb_owners.specs.Possible.{after_clock, after_unseen, possible, possible_begun, possible_shown, replied_to, settled_at_end, showing};
ghost use Rattle.fsb_owners.specs.Rules.{is_asked_in_vain, is_holder_lacking, is_holder_silent, is_none_left, is_owner_lacking, is_owner_silent, is_ownership_broken, is_upgrade_unfit, is_write_back_unfit, is_written_when_lost, ownership_verdict};
ghost use Rattle.fsb_owners.specs.Shown.{is_coming, is_for_line, is_spoiled, may_drop_at, names, snooped_at};
ghost use Rattle.fsb_owner_laws.specs.Losses.{AreCoherent, fits_reply, possible_turned};
ghost use Rattle.fsb_owner_laws.specs.OneClock.{or_at};
ghost use Rattle.fsb_owner_laws.specs.Unbroken.{IsUnbroken};

/// A snoop end turns each joint state that it fits into one of a coherent line, stores and drops lose none, and a reply loses
/// those that it does not fit.
pub fn steps_keep_lines_coherent()
    ensures request { (hit hitm turned : Bool) (asker : ℕ) (kind : Purpose) (set : List Joint) →
        asker < 4 → AreCoherent set →
        is_none_left (reached_by (is_after_snoop_end asker kind (settled_at_end hitm turned kind) hit)
        (showing hit hitm asker kind set))
        ≡ is_none_left (showing hit hitm asker kind set) }
    ensures reply { (hit : Bool) (asker : ℕ) (kind : Purpose) (set : List Joint) → asker < 4 →
        AreCoherent set →
        is_none_left (replied_to asker kind hit set)
        ≡ is_none_left (filter (fits_reply hit asker kind) set) }
    ensures unseen { (v : Trace) (line c : ℕ) (set : List Joint) → AreCoherent set →
        is_none_left (after_unseen v line c set) ≡ is_none_left set }
{}

/// A line that could be coherent is left without a joint state at no other place than at a request that breaks rule 22, 23 or
/// 24, at a snoop end that breaks one of the rules 25 to 29, or at a reply that the others' copies do not fit.
pub fn joint_states_end_where_a_rule_is_broken()
    ensures next { (first : List Joint) (v : Trace) (line c : ℕ) → AreCoherent first →
        is_none_left (possible first v line (c + 1))
        ≡ is_none_left (possible_turned first v line c) }
    ensures begun { (first : List Joint) (v : Trace) (line c : ℕ) → 0 < c →
        is_spoiled v line ≡ false →
        is_none_left (possible first v line (c - 1)) ≡ false →
        is_none_left (possible_begun first v line (c - 1)) ≡ true →
        (is_write_back_unfit first v c || is_upgrade_unfit first v c || is_asked_in_vain first v c)
        ≡ true }
    ensures shown { (first : List Joint) (v : Trace) (line c : ℕ) → is_spoiled v line ≡ false →
        is_none_left (possible_begun first v line c) ≡ false →
        is_none_left (possible_shown first v line c) ≡ true →
        (is_owner_lacking first v c || is_owner_silent first v c || is_holder_silent first v c
        || is_holder_lacking first v c || is_written_when_lost first v c)
        ≡ true }
{}

/// The joint states that are possible before a clock rest on the samples up to that clock alone, where responses come in time.
pub fn possible_states_rest_on_the_past()
    ensures { (n : ℕ) (first : List Joint) (w v : Trace) (line c : ℕ) → AgreeTo n w v → Orderly w →
        Orderly v → c < n → possible first w line c ≡ possible first v line c }
{}

/// A line of which a clock shows nothing has the joint states that stores and drops leave; where the same agents may store and
/// drop as before, these are those that it had.
pub fn quiet_lines_keep_their_states()
    ensures shown { (v : Trace) (line c : ℕ) (set : List Joint) → names v line c ≡ false →
        ((j : ℕ) → snooped_at v c ≡ Some j → is_for_line v line j ≡ false) →
        after_clock v line c set ≡ after_unseen v line c set }
    ensures unseen { (v : Trace) (line b c : ℕ) (set : List Joint) →
        ((a : ℕ) → is_coming v line a (c + 1) ≡ is_coming v line a (b + 1)) →
        ((a : ℕ) → may_drop_at v line c a ≡ may_drop_at v line b a) →
        after_unseen v line c (after_unseen v line b set) ≡ after_unseen v line b set }
{}

/// Where no phase rule is broken, no request up to the clock breaks rule 21, and neither rule 30 nor rule 31 is broken at it, a
/// reply loses no line its last joint state either. So a set is never empty unless a rule is broken.
pub fn unbroken_lines_keep_a_joint_state()
    ensures { (m : Marks) (first : List Joint) (v : Trace) (line c : ℕ) → AreCoherent first →
        IsUnbroken m first v line c →
        is_none_left (possible first v line (c + 1))
        ≡ is_none_left (possible_shown first v line c) }
{}

/// With one sample more the verdict is the one before, or else it is the least rule that is broken at the new clock.
pub fn ownership_verdict_goes_on()
    ensures { (first : List Joint) (h : Trace) (x : Sample) (v : Trace) → OneMore h x v →
        ownership_verdict first v
        ≡ or_at (is_ownership_broken first v) 32 (length h) (ownership_verdict first h) }
{}

/// A line that no request named before a clock has the joint states there that it had at first, in a trace that begins with
/// empty caches and in one that begins in traffic.
pub fn untouched_lines_stay_as_they_begin()
    ensures empty { (v : Trace) (line c : ℕ) → Orderly v →
        ((q : ℕ) → q < c → names v line q ≡ false) →
        possible (unheld ∷ []) v line c ≡ unheld ∷ [] }
    ensures unknown { (v : Trace) (line c : ℕ) → Orderly v →
        ((q : ℕ) → q < c → names v line q ≡ false) →
        possible every_joint v line c ≡ every_joint }
{}

/// A trace that breaks no phase rule is orderly, and what is Deferred in it had DEFER# at its snoop end.
pub fn sound_traces_are_orderly()
    ensures orderly { (m : Marks) (v : Trace) → verdict m v ≡ None → Orderly v }
    ensures defers { (m : Marks) (v : Trace) (i : ℕ) → verdict m v ≡ None →
        is_deferred v i ≡ true → line_at_snoop_end DEFER v i ≡ true }
{}
