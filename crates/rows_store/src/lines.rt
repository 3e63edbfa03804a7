//! The control lines by name, as the bits of a clock's lines.

use fsb_signal::Lines;

/// Agent 0 asks for the bus.
pub const BREQ0: u32 = Lines::BREQ0.0;

/// Agent 1 asks for the bus.
pub const BREQ1: u32 = Lines::BREQ1.0;

/// Agent 2 asks for the bus.
pub const BREQ2: u32 = Lines::BREQ2.0;

/// Agent 3 asks for the bus.
pub const BREQ3: u32 = Lines::BREQ3.0;

/// The priority agent asks for the bus.
pub const BPRI: u32 = Lines::BPRI.0;

/// The bus is locked.
pub const LOCK: u32 = Lines::LOCK.0;

/// No new request is to begin.
pub const BNR: u32 = Lines::BNR.0;

/// A request begins.
pub const ADS: u32 = Lines::ADS.0;

/// Address error: the request is cancelled.
pub const AERR: u32 = Lines::AERR.0;

/// Snoop: the line is held.
pub const HIT: u32 = Lines::HIT.0;

/// Snoop: the line is held and modified.
pub const HITM: u32 = Lines::HITM.0;

/// Snoop: the request is deferred or retried.
pub const DEFER: u32 = Lines::DEFER.0;

/// Bit 0 of the response code.
pub const RS0: u32 = Lines::RS0.0;

/// Bit 1 of the response code.
pub const RS1: u32 = Lines::RS1.0;

/// Bit 2 of the response code.
pub const RS2: u32 = Lines::RS2.0;

/// The target is ready for data.
pub const TRDY: u32 = Lines::TRDY.0;

/// The data bus is busy.
pub const DBSY: u32 = Lines::DBSY.0;

/// A chunk of data is there.
pub const DRDY: u32 = Lines::DRDY.0;
