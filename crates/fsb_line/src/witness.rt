//! Runs that may happen, so that the conditions of the events are seen to be met. Each kind of event
//! stands in one of them.

ghost use Rattle.std.specs.Prelude.{◌≡◌, [], length};
ghost use Rattle.fsb_line.specs.Line.{unheld};
ghost use Rattle.fsb_line.specs.LineRuns.{MayRun, run};
ghost use Rattle.fsb_line.specs.Witness.{
  byte,
  deferral,
  deliveries,
  lost_upgrade,
  promises,
  sharing,
  upgrade_race,
  write_back,
};

/// Two agents ask to own the line, a third asks to read it, and each is promised it before any byte
/// has come. Then both owners store in turn, and the reader reads what the second one stored.
#[tactic(auto, using(crate::proofs::WitnessRuns::races))]
pub fn two_owners_race_and_a_third_reads()
    ensures promised { MayRun (unheld (byte 0)) promises }
    ensures awaited { length (run (unheld (byte 0)) promises).chain ≡ 3 }
    ensures delivered { MayRun (run (unheld (byte 0)) promises) deliveries }
    ensures oldest_ended { (run (run (unheld (byte 0)) promises) deliveries).chain ≡ [] }
    ensures read { (run (run (unheld (byte 0)) promises) deliveries).copy 2 ≡ byte 7 }
{}

/// A request is deferred, another on the pending line is retried, and the reply gives the line.
#[tactic(auto, using(crate::proofs::WitnessRuns::races))]
pub fn a_deferral_gets_its_reply()
    ensures happens { MayRun (unheld (byte 0)) deferral }
    ensures read { (run (unheld (byte 0)) deferral).copy 1 ≡ byte 5 }
{}

/// Two agents share the line and ask to upgrade: the first wins, and the second gets the line from
/// it, with its bytes.
#[tactic(auto, using(crate::proofs::WitnessRuns::races))]
pub fn two_upgrades_race()
    ensures shared { MayRun (unheld (byte 0)) sharing }
    ensures raced { MayRun (run (unheld (byte 0)) sharing) upgrade_race }
    ensures stored { (run (run (unheld (byte 0)) sharing) upgrade_race).copy 1 ≡ byte 7 }
{}

/// Two agents share the line, and an upgrade is lost to a request that is itself to be made again.
#[tactic(auto, using(crate::proofs::WitnessRuns::races))]
pub fn an_upgrade_is_lost()
    ensures shared { MayRun (unheld (byte 0)) sharing }
    ensures lost { MayRun (run (unheld (byte 0)) sharing) lost_upgrade }
    ensures stored { (run (run (unheld (byte 0)) sharing) lost_upgrade).copy 1 ≡ byte 7 }
{}

/// An owner stores and writes the line back, and a reader gets the stored bytes from the memory.
#[tactic(auto, using(crate::proofs::WitnessRuns::races))]
pub fn a_dirty_line_is_written_back()
    ensures happens { MayRun (unheld (byte 0)) write_back }
    ensures kept { (run (unheld (byte 0)) write_back).memory ≡ byte 7 }
{}
