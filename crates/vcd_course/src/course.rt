ghost use Rattle.std.specs.Prelude.{◌≡◌, ◌<◌, ◌++◌, [], ◌∷◌, true, false, Some, None, IfSome, length};
ghost use Rattle.std.specs.List.{list_all};
ghost use Rattle.vcd_way.specs.Ways.{ValueRules};
ghost use Rattle.vcd_way.specs.Pieces.{Happening, Comes, Gets, Switches};
ghost use Rattle.vcd_way.specs.Lawful.{is_line, is_lawful_tap};
ghost use Rattle.vcd_way.specs.Steps.{is_too_wide_for, unknown_from_here};
ghost use Rattle.vcd_way.specs.Events.{Sampled, sampled, at_first_edge, is_edge, digit_after, is_known_digit};
ghost use Rattle.vcd_grammar.specs.Values.{sample_of};
ghost use Rattle.vcd_course.specs.Told.{event_list, event_told, stamp_told, last_told, switch_told, rows_told, open_told, rules_of, late_of, stamp_of, FitsCourse};
ghost use Rattle.vcd_course.specs.Opening.{first_open, next_open, after_happening, after_happenings, ended_in, told_at, sample_by};

use crate::event::{CourseEvent, Stamp, Told};
use crate::lines::{Block, Rows};
use vcd_way::{Edge, Tap};

/// When there is a sample.
#[derive(Clone, Copy, Debug, PartialEq, Eq)]
pub struct CourseRules {
    pub edge: Edge,
    /// A clock whose first known digit is the one after an edge has an edge there.
    pub takes_first: bool,
}

/// The lines while a dump is read.
#[derive(Drop)]
pub struct Course {
    rules: CourseRules,
    /// The lines that are sampled after the changes of the edge's own time.
    late: Vec<u8>,
    /// The lines before the block that stands open, and in it.
    block: Block,
    /// The clock was 0 or 1 before the block.
    is_seen: bool,
    stamp: Option<Stamp>,
}

impl Course {
    /// Before anything happens.
    pub fn new(rules: CourseRules, late: Vec<u8>) -> Self
        ensures open { open_told result ≡ first_open }
        ensures rules { rules_of result ≡ rules }
        ensures late { late_of result ≡ late.items }
        ensures stamp { stamp_of result ≡ None }
    {
        Course {
            rules,
            late,
            block: Block::new(),
            is_seen: false,
            stamp: None,
        }
    }

    /// Some taps get a value.
    #[inline(always)]
    pub fn gets(&mut self, taps: &[Tap], digits: &[u8])
        requires lawful { list_all is_lawful_tap taps.now ≡ true }
        requires fits { is_too_wide_for taps.now digits.now ≡ false }
        ensures open { open_told self.new ≡ after_happening (open_told self.old)
            (Gets (record { taps = taps.now; digits = digits.now })) }
        ensures rules { rules_of self.new ≡ rules_of self.old }
        ensures late { late_of self.new ≡ late_of self.old }
        ensures stamp { stamp_of self.new ≡ stamp_of self.old }
    {
        self.block.set_taps(taps, digits);
    }

    /// These lines become unknown until they get a value.
    pub fn forget(&mut self, unset: &[u8])
        requires { list_all is_line unset.now ≡ true }
        ensures open { open_told self.new
            ≡ after_happenings (open_told self.old) (unknown_from_here unset.now) }
        ensures rules { rules_of self.new ≡ rules_of self.old }
        ensures late { late_of self.new ≡ late_of self.old }
        ensures stamp { stamp_of self.new ≡ stamp_of self.old }
    {
        self.block.forget(unset);
    }

    /// A greater time comes. Tells the sample of the block that it ends, if there is one.
    #[inline(always)]
    pub fn comes(&mut self, stamp: Stamp) -> Option<CourseEvent>
        ensures open { open_told self.new ≡ after_happening (open_told self.old) (Comes (stamp_told stamp)) }
        ensures told { (m : ValueRules) → FitsCourse m self.old →
            event_list result ≡ told_at m (open_told self.old) (Comes (stamp_told stamp)) }
        ensures rules { rules_of self.new ≡ rules_of self.old }
        ensures late { late_of self.new ≡ late_of self.old }
        ensures stamp { stamp_of self.new ≡ Some stamp }
        ensures last { IfSome result (λ e. e.stamp ≡ stamp_of self.old) }
    {
        let event = self.ended();
        self.moves_on(stamp);
        event
    }

    /// Whether the block that stands open has a sample, if it ends here.
    #[inline(always)]
    pub fn tells(&self) -> bool
        ensures sample { result ≡ true → (m : ValueRules) → FitsCourse m self.now →
            0 < length (ended_in m (open_told self.now)) }
        ensures silent { result ≡ false → (m : ValueRules) → FitsCourse m self.now →
            ended_in m (open_told self.now) ≡ [] }
    {
        let clock = self.block.inside.clock();
        if self.is_seen {
            is_edge(self.rules.edge, self.block.before.clock(), clock)
        } else {
            self.rules.takes_first && clock == digit_after(self.rules.edge)
        }
    }

    /// A greater time comes. Of the block that it ends nothing is told.
    #[inline(always)]
    pub fn moves_on(&mut self, stamp: Stamp)
        ensures open { open_told self.new ≡ after_happening (open_told self.old) (Comes (stamp_told stamp)) }
        ensures rules { rules_of self.new ≡ rules_of self.old }
        ensures late { late_of self.new ≡ late_of self.old }
        ensures stamp { stamp_of self.new ≡ Some stamp }
    {
        self.close();
        self.stamp = Some(stamp);
    }

    /// The dump stops for a time, or it goes on, and these lines are unknown. Tells the sample of the
    /// block that this ends, if there is one, and then that it stops or goes on.
    pub fn switches(&mut self, is_off: bool, lines: &[u8]) -> (Option<CourseEvent>, CourseEvent)
        requires { list_all is_line lines.now ≡ true }
        ensures open { open_told self.new ≡ after_happening (open_told self.old)
            (Switches (switch_told is_off) lines.now) }
        ensures told { (m : ValueRules) → FitsCourse m self.old →
            event_list result.0 ++ event_told result.1 ∷ []
            ≡ told_at m (open_told self.old) (Switches (switch_told is_off) lines.now) }
        ensures rules { rules_of self.new ≡ rules_of self.old }
        ensures late { late_of self.new ≡ late_of self.old }
        ensures stamp { stamp_of self.new ≡ stamp_of self.old }
        ensures last { IfSome result.0 (λ e. e.stamp ≡ stamp_of self.old) }
        ensures switch { result.1.stamp ≡ stamp_of self.old }
    {
        let event = self.ended();
        self.close();
        self.block.forget(lines);
        self.block.close();
        let told = if is_off { Told::Hole } else { Told::Resumed };
        (
            event,
            CourseEvent {
                told,
                stamp: self.stamp,
            },
        )
    }

    /// The sample of the block that stands open, if it ended here.
    pub fn ends(&self) -> Option<CourseEvent>
        ensures told { (m : ValueRules) → FitsCourse m self.now →
            event_list result ≡ ended_in m (open_told self.now) }
        ensures last { IfSome result (λ e. e.stamp ≡ stamp_of self.now) }
    {
        self.ended()
    }

    /// The same, by the rules of the course.
    #[inline(always)]
    fn ended(&self) -> Option<CourseEvent>
        ensures told { event_list result ≡ sample_by self.now.rules.edge
            self.now.rules.takes_first self.now.late.items (open_told self.now) }
        ensures last { IfSome result (λ e. e.stamp ≡ self.now.stamp) }
    {
        let clock = self.block.inside.clock();
        if self.is_seen && is_edge(self.rules.edge, self.block.before.clock(), clock) {
            return self.sample(&self.block.before);
        }
        if self.rules.takes_first && !self.is_seen && clock == digit_after(self.rules.edge) {
            return self.first_sample();
        }
        None
    }

    /// The sample of a first edge: before the first stamp nothing comes before the values of the block.
    #[inline(never)]
    fn first_sample(&self) -> Option<CourseEvent>
        ensures told { event_list result ≡ Sampled (sample_of (sampled self.now.late.items
            (at_first_edge (last_told self.now.stamp) (rows_told self.now.block.before) (rows_told self.now.block.inside))
            (rows_told self.now.block.inside))) (last_told self.now.stamp) ∷ [] }
        ensures last { IfSome result (λ e. e.stamp ≡ self.now.stamp) }
    {
        match self.stamp {
            None => self.sample(&self.block.inside),
            Some(_) => self.sample(&self.block.before.settled(&self.block.inside)),
        }
    }

    /// The sample of these digits before the block.
    #[inline(always)]
    fn sample(&self, before: &Rows) -> Option<CourseEvent>
        ensures told { event_list result ≡ Sampled (sample_of
            (sampled self.now.late.items (rows_told before.now) (rows_told self.now.block.inside)))
            (last_told self.now.stamp) ∷ [] }
        ensures last { IfSome result (λ e. e.stamp ≡ self.now.stamp) }
    {
        let sample = before.sample(self.late.as_slice(), &self.block.inside);
        Some(CourseEvent {
            told: Told::Sampled(sample),
            stamp: self.stamp,
        })
    }

    /// Ends the block.
    #[inline(always)]
    fn close(&mut self)
        ensures open { open_told self.new ≡ next_open (open_told self.old) }
        ensures rules { self.new.rules ≡ self.old.rules }
        ensures late { self.new.late ≡ self.old.late }
        ensures stamp { self.new.stamp ≡ self.old.stamp }
    {
        self.is_seen = self.is_seen || is_known_digit(self.block.inside.clock());
        self.block.close();
    }
}

/// Whether the digit is known.
#[inline(always)]
fn is_known_digit(digit: u8) -> bool
    ensures { result ≡ is_known_digit digit }
{
    digit == b'0' || digit == b'1'
}

/// Whether the clock's edge lies between these digits.
#[inline(always)]
fn is_edge(edge: Edge, before: u8, after: u8) -> bool
    ensures { result ≡ is_edge edge before after }
{
    match edge {
        Edge::Rising => before == b'0' && after == b'1',
        Edge::Falling => after == b'0' && before == b'1',
    }
}

/// The clock's digit after its edge.
fn digit_after(edge: Edge) -> u8
    ensures { result ≡ digit_after edge }
{
    match edge {
        Edge::Rising => b'1',
        Edge::Falling => b'0',
    }
}
