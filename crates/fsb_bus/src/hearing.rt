//! All that a clock brings to the bus.

ghost use Rattle.std.specs.Prelude.{◌≡◌, ◌<◌, ◌++◌, ℕ, [], Some, length, vec_capacity, vec_len};
ghost use Rattle.std.specs.Option.{option_map_or};
ghost use Rattle.fsb_memory.specs.Controller.{is_mapped};
ghost use Rattle.fsb_bench_view.specs.BusEvents.{answered_by, bus_answered, bus_cancelled, bus_ended, bus_heard, bus_snooped, bus_started, end_entries, heard_entries};
ghost use Rattle.fsb_bench_view.specs.MaySteps.{MayCancel, MayEnd, MayHear, MaySnoop, MayStart};
ghost use Rattle.fsb_bench_view.specs.declared.beginning.Starting.{Starting as StartingView};
ghost use Rattle.fsb_bench_view.specs.declared.decided.Ending.{Ending as EndingView};
ghost use Rattle.fsb_bench_view.specs.declared.snoop.SnoopSettled.{SnoopSettled as SnoopedView};
ghost use Rattle.fsb_queue.specs.declared.entry.Entry.{Entry as EntryView};
ghost use Rattle.fsb_bus.specs.Buses.{bus_view};
ghost use Rattle.fsb_bus.specs.LogRoom.{HasLogRoom};

use crate::bus::Bus;
use fsb_access::Log;
use fsb_bench_view::{Decided, Ending, SnoopSettled, Starting};
use fsb_phase::{Drive, Phased};
use fsb_queue::Entry;

impl Bus {
    /// The bus hears what the clock brings: what begins, what is cancelled, the snoop end, the
    /// response Deferred, the end of a request.
    pub fn hear(&mut self, clock: u32, decided: &Decided, phased: &Phased, log: &mut Log)
        requires few { length self.old.agents.items < 256 }
        requires may { MayHear (is_mapped self.old.memory) (bus_view self.old) clock decided.now
            phased.now }
        requires started { vec_len self.old.started < vec_capacity self.old.started }
        requires room { HasLogRoom self.old.agents.items log.old }
        ensures view { bus_view self.new
            ≡ bus_heard (bus_view self.old) clock decided.now phased.now }
        ensures entries { log.new.entries ≡ log.old.entries
            ++ heard_entries (bus_view self.old) clock decided.now phased.now }
        ensures room { HasLogRoom self.new.agents.items log.new }
        ensures named { (line : ℕ) → is_mapped self.new.memory line
            ≡ is_mapped self.old.memory line }
        ensures started { vec_capacity self.new.started ≡ vec_capacity self.old.started }
        ensures queue { self.new.queue ≡ self.old.queue }
        ensures phases { self.new.phases ≡ self.old.phases }
        ensures arbiter { self.new.arbiter ≡ self.old.arbiter }
    {
        self.hear_start(clock, &decided.starting);
        self.hear_cancel(&decided.cancelled);
        self.hear_snoop(&decided.snooped);
        self.hear_answer(clock, &decided.drive);
        let ending = self.ending(phased);
        self.hear_end(clock, &ending, log);
    }

    /// A request begins at the clock, if one does.
    fn hear_start(&mut self, clock: u32, starting: &Option<Starting>)
        requires may { (s : StartingView) → starting.now ≡ Some s →
            MayStart (bus_view self.old) clock s }
        requires room { vec_len self.old.started < vec_capacity self.old.started }
        ensures view { bus_view self.new
            ≡ option_map_or (bus_started (bus_view self.old) clock) starting.now
            (bus_view self.old) }
        ensures rest { self.new ≡ record self.old {
          agents = self.new.agents;
          bridge = self.new.bridge;
          latest = self.new.latest;
          started = self.new.started;
        } }
        ensures room { vec_capacity self.new.started ≡ vec_capacity self.old.started }
    {
        if let Some(starting) = starting {
            self.start(clock, starting);
        }
    }

    /// An address error cancels a request, if it does.
    fn hear_cancel(&mut self, cancelled: &Option<Entry>)
        requires { (entry : EntryView) → cancelled.now ≡ Some entry →
            MayCancel (bus_view self.old) entry }
        ensures view { bus_view self.new
            ≡ option_map_or (bus_cancelled (bus_view self.old)) cancelled.now (bus_view self.old) }
        ensures rest { self.new
            ≡ record self.old { agents = self.new.agents; bridge = self.new.bridge } }
    {
        if let Some(entry) = cancelled {
            self.cancel(entry);
        }
    }

    /// A snoop ends, if one does.
    fn hear_snoop(&mut self, snooped: &Option<SnoopSettled>)
        requires few { length self.old.agents.items < 256 }
        requires may { (s : SnoopedView) → snooped.now ≡ Some s → MaySnoop (bus_view self.old) s }
        ensures view { bus_view self.new
            ≡ option_map_or (bus_snooped (bus_view self.old)) snooped.now (bus_view self.old) }
        ensures rest { self.new ≡ record self.old {
          agents = self.new.agents;
          bridge = self.new.bridge;
          served = self.new.served;
        } }
    {
        if let Some(snooped) = snooped {
            self.commit(snooped);
        }
    }

    /// A request is answered with Deferred, if one is.
    fn hear_answer(&mut self, clock: u32, drive: &Drive)
        ensures view { bus_view self.new ≡ option_map_or (bus_answered (bus_view self.old) clock)
            (answered_by (bus_view self.old) drive.now) (bus_view self.old) }
        ensures rest { self.new ≡ record self.old { bridge = self.new.bridge } }
    {
        if let Some(entry) = self.answered(drive) {
            self.answer(clock, &entry);
        }
    }

    /// A request ends, if one does.
    fn hear_end(&mut self, clock: u32, ending: &Option<Ending>, log: &mut Log)
        requires may { (e : EndingView) → ending.now ≡ Some e →
            MayEnd (is_mapped self.old.memory) (bus_view self.old) e }
        requires served { (e : EndingView) → ending.now ≡ Some e →
            0 < length self.old.served.items }
        requires room { HasLogRoom self.old.agents.items log.old }
        ensures view { bus_view self.new
            ≡ option_map_or (bus_ended (bus_view self.old) clock) ending.now (bus_view self.old) }
        ensures entries { log.new.entries ≡ log.old.entries
            ++ option_map_or (end_entries (bus_view self.old) clock) ending.now [] }
        ensures room { HasLogRoom self.new.agents.items log.new }
        ensures named { (line : ℕ) → is_mapped self.new.memory line
            ≡ is_mapped self.old.memory line }
        ensures rest { self.new ≡ record self.old {
          agents = self.new.agents;
          memory = self.new.memory;
          served = self.new.served;
        } }
    {
        if let Some(ending) = ending {
            self.end(clock, ending, log);
        }
    }
}
