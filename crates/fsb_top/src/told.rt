//! How a call ends that has found something and tells it.
ghost use Rattle.std.specs.Prelude.{◌≡◌, IsTrue, OnErr, OnOk};
ghost use Rattle.fsb_top.specs.BenchEnds.{IsWritten};
ghost use Rattle.fsb_top.specs.CallEnds.{EndsTold};

use crate::status::Status;
use fsb_io::{Failed, Line, Sink, put_all};

/// Writes the line of what was found. The status is that of what was found, or that the sink failed.
pub fn tell_line<O: Sink>(out: &mut O, line: &Line, found: Status) -> Status
    ensures ends { EndsTold O.Sink out.old out.new found result }
    ensures text { IsTrue O.tells →
        IsWritten result line.now.items (O.holds out.old) (O.holds out.new) }
    ensures log_name { IsTrue O.tells → O.begun_as out.new ≡ O.begun_as out.old }
{
    told(put_all(out, line.as_slice()), found)
}

/// The status of what was found, or that it could not be written.
pub fn told(written: Result<(), Failed>, found: Status) -> Status
    ensures written { OnOk written (result ≡ found) }
    ensures failed { OnErr written (result ≡ Status.WriteFault) }
{
    match written {
        Ok(()) => found,
        Err(Failed) => Status::WriteFault,
    }
}
