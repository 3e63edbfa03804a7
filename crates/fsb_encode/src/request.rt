ghost use Rattle.std.specs.Prelude.{◌≡◌, ◌^◌, ◌<◌, ◌≤◌, IsTrue};
ghost use Rattle.fsb_encode.specs.Request.{is_lawful_request, high_bit, den_bit, clocks, pairs_of};

/// The place of A4# in the address word, whose bit 0 is A3#; in the second clock it is DEN#.
pub const A4: u64 = 1 << 1;

/// The place of A5# in the address word: the line stands from here up, the chunk below.
pub const A5: u64 = 1 << 2;

/// The place of A16# in the address word: the deferred ID stands on the eight bits from here up.
pub const A16: u64 = 1 << 13;

/// The bytes of a line.
pub const LINE_BYTES: u64 = 32;

/// What a request asks for.
#[derive(Clone, Copy, Debug, PartialEq, Eq)]
pub enum Kind {
    /// The reply to a deferred request; it names no line.
    Reply,
    /// A read and invalidate: the line with ownership.
    Invalidate,
    /// A data read.
    Read,
    /// A write-back of a modified line.
    WriteBack,
    /// An upgrade, a zero-length invalidation: ownership of a line that the agent holds. No data move, unless it lost
    /// its race.
    Upgrade,
}

/// A request as it is decoded from its two clocks.
#[derive(Clone, Copy, Debug, PartialEq, Eq)]
pub struct Request {
    pub kind: Kind,
    /// The byte address divided by 32.
    pub line: u64,
    /// The chunk of eight bytes that comes first, 0 to 3.
    pub chunk: u8,
    /// The deferred ID.
    pub did: u8,
    /// Whether DEN# is asserted: the request may be deferred.
    pub den: bool,
}

/// The address and REQ words of one request clock, 33 and 5 bits.
#[derive(Clone, Copy, Debug, PartialEq, Eq)]
pub struct Pair {
    pub addr: u64,
    pub req: u8,
}

impl Request {
    /// Whether the request is lawful: its line is below 2^31 and its chunk below 4; a write-back has chunk 0 and no
    /// DEN#; an upgrade has no DEN#; a reply has line 0, chunk 0 and no DEN#.
    #[tactic(auto, unfolding(crate::specs::Request::is_lawful_request, crate::specs::Request::are_lawful_fields))]
    pub fn is_lawful(&self) -> bool
        ensures { result ≡ is_lawful_request self.now }
    {
        let _did = self.did;
        match self.kind {
            Kind::Reply => self.line == 0 && self.chunk == 0 && !self.den,
            Kind::Invalidate | Kind::Read => self.line < 1 << 31 && self.chunk < 4,
            Kind::WriteBack => self.line < 1 << 31 && self.chunk == 0 && !self.den,
            Kind::Upgrade => self.line < 1 << 31 && self.chunk < 4 && !self.den,
        }
    }
}

/// The two clocks of a lawful request.
#[tactic(auto, unfolding(crate::specs::Request::is_lawful_request, crate::specs::Request::are_lawful_fields, crate::specs::Request::pairs_of, crate::specs::Request::row_of))]
pub fn encode(request: &Request) -> (Pair, Pair)
    requires { IsTrue (is_lawful_request request.now) }
    ensures { result ≡ pairs_of request.now }
{
    let Request {
        kind,
        line,
        chunk,
        did,
        den,
    } = *request;
    let id = u64::from(did) * A16;
    match kind {
        Kind::Reply => clocks(0b00000, id, 0b00000, 0),
        Kind::Invalidate => {
            let addr = line * A5 + u64::from(chunk);
            clocks(0b00010 + high_bit(line), addr, 0b00010, id + den_bit(den))
        }
        Kind::Read => {
            let addr = line * A5 + u64::from(chunk);
            clocks(0b00110 + high_bit(line), addr, 0b00010, id + den_bit(den))
        }
        Kind::WriteBack => clocks(0b00101 + high_bit(line), line * A5, 0b00010, id),
        Kind::Upgrade => {
            let addr = line * A5 + u64::from(chunk);
            clocks(0b00010 + high_bit(line), addr, 0b00000, id)
        }
    }
}

/// Two lawful requests that stand on the bus alike are one request: a law, and no code.
#[tactic(auto, using(crate::proofs::CodedRequests::codes_differ))]
pub fn codes_differ()
    ensures { (r s : Request) → IsTrue (is_lawful_request r) → IsTrue (is_lawful_request s)
        → pairs_of r ≡ pairs_of s → r ≡ s }
{}

/// REQ3# in the first clock of a request for this line.
#[tactic(auto, unfolding(crate::specs::Request::high_bit))]
fn high_bit(line: u64) -> u8
    requires { line < 2 ^ 31 }
    ensures value { result ≡ high_bit line }
    ensures bound { result ≤ 8 }
{
    if line * LINE_BYTES < 1 << 32 {
        0
    } else {
        0b01000
    }
}

/// DEN# on A4#.
#[tactic(auto, unfolding(crate::specs::Request::den_bit))]
fn den_bit(den: bool) -> u64
    ensures value { result ≡ den_bit den }
    ensures bound { result ≤ A4 }
{
    if den { A4 } else { 0 }
}

#[tactic(auto, unfolding(crate::specs::Request::clocks))]
fn clocks(req: u8, addr: u64, later_req: u8, later_addr: u64) -> (Pair, Pair)
    ensures { result ≡ clocks req addr later_req later_addr }
{
    let first = Pair { addr, req };
    let second = Pair {
        addr: later_addr,
        req: later_req,
    };
    (first, second)
}
