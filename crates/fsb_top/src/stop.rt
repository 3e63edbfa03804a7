//! The status of what stopped a call, and of what was told of a dump.
ghost use Rattle.std.specs.Prelude.{◌≡◌};
ghost use Rattle.fsb_top.specs.Looks.{broken_status};

use crate::read::Refusal;
use crate::status::Status;
use fsb_play::Played;
use fsb_rules::Broken;
use fsb_show::ShowStop;
use fsb_watch::DumpStop;

impl From<Refusal> for Status {
    ghost use Rattle.std.specs.Prelude.{◌≡◌};
    ghost use Rattle.fsb_top.specs.StopStatus.{refusal_status};

    ghost from_gives = { λ refusal status. status ≡ refusal_status refusal };

    fn from(refusal: Refusal) -> Status {
        match refusal {
            Refusal::Bad(fault) => Status::BadBench(fault),
            Refusal::ReadFault => Status::ReadFault,
            Refusal::TooLong => Status::TooLong,
            Refusal::Memory => Status::OutOfMemory,
        }
    }
}

impl From<DumpStop> for Status {
    ghost use Rattle.std.specs.Prelude.{◌≡◌};
    ghost use Rattle.fsb_top.specs.StopStatus.{dump_status};

    ghost from_gives = { λ stop status. status ≡ dump_status stop };

    fn from(stop: DumpStop) -> Status {
        match stop {
            DumpStop::Bad(fault) => Status::BadDump(fault),
            DumpStop::ReadFault => Status::ReadFault,
            DumpStop::TooLong => Status::TooLong,
            DumpStop::Memory => Status::OutOfMemory,
        }
    }
}

impl From<ShowStop> for Status {
    ghost use Rattle.std.specs.Prelude.{◌≡◌};
    ghost use Rattle.fsb_top.specs.StopStatus.{show_status};

    ghost from_gives = { λ stop status. status ≡ show_status stop };

    fn from(stop: ShowStop) -> Status {
        match stop {
            ShowStop::Bad(fault) => Status::BadDump(fault),
            ShowStop::ReadFault => Status::ReadFault,
            ShowStop::TooLong => Status::TooLong,
            ShowStop::Memory => Status::OutOfMemory,
        }
    }
}

impl From<Played> for Status {
    ghost use Rattle.std.specs.Prelude.{◌≡◌};
    ghost use Rattle.fsb_top.specs.StopStatus.{played_status};

    ghost from_gives = { λ played status. status ≡ played_status played };

    fn from(played: Played) -> Status {
        match played {
            Played::Done => Status::Done,
            Played::WriteFault => Status::WriteFault,
            Played::DumpFault => Status::DumpFault,
        }
    }
}

/// The status of a first broken rule, or of none.
pub fn status_of_broken(broken: Option<Broken>) -> Status
    ensures { result ≡ broken_status broken }
{
    match broken {
        None => Status::Done,
        Some(broken) => Status::Rejected(broken),
    }
}
