ghost use Rattle.std.specs.Prelude.{◌≡◌, IsTrue};
ghost use Rattle.fsb_access.specs.Access.{size_of, addr_of, accessed_line, chunk_of, number_of, is_size, is_place, fits, is_lawful_access};

/// Addresses are below this number.
pub const ADDRESS_LIMIT: u64 = 0x10_0000_0000;

/// The bytes of a cache line.
pub const LINE_BYTES: u64 = 32;

/// The bytes of a chunk: what the data bus carries in one clock.
pub const CHUNK_BYTES: u64 = 8;

/// The chunks of a cache line.
pub const LINE_CHUNKS: u64 = 4;

/// What a store puts.
#[derive(Clone, Copy, Debug, PartialEq, Eq)]
pub enum Operand {
    /// The number itself, which fits the store's size.
    Literal(u64),
    /// The value that the agent loaded last (0 before any load) plus this number, modulo the store's width.
    LastPlus(u64),
}

impl Operand {
    /// The number that the operand names: the literal, or what is added.
    pub fn number(&self) -> u64
        ensures { result ≡ number_of self.now }
    {
        match self {
            Operand::Literal(number) => *number,
            Operand::LastPlus(number) => *number,
        }
    }
}

/// One load or store of `size` bytes at the byte address `addr`, the lowest byte first.
///
/// A lawful access ([`Access::is_lawful`]) has 1, 2, 4 or 8 bytes and an address below 2^36 that is a multiple of the
/// size, so it lies within one chunk of eight bytes; the number of a store fits its size.
#[derive(Clone, Copy, Debug, PartialEq, Eq)]
pub enum Access {
    Load { size: u8, addr: u64 },
    Store { size: u8, addr: u64, value: Operand },
}

impl Access {
    /// How many bytes are loaded or stored.
    pub fn size(&self) -> u8
        ensures { result ≡ size_of self.now }
    {
        match self {
            Access::Load { size, .. } => *size,
            Access::Store { size, .. } => *size,
        }
    }

    /// The address of the first byte.
    pub fn addr(&self) -> u64
        ensures { result ≡ addr_of self.now }
    {
        match self {
            Access::Load { addr, .. } => *addr,
            Access::Store { addr, .. } => *addr,
        }
    }

    /// The number of the cache line that the first byte lies in.
    pub fn line(&self) -> u64
        ensures { result ≡ accessed_line self.now }
    {
        self.addr() / LINE_BYTES
    }

    /// The chunk of that line, 0 to 3, that the first byte lies in.
    pub fn chunk(&self) -> u8
        ensures { result ≡ chunk_of self.now }
    {
        ((self.addr() / CHUNK_BYTES) % LINE_CHUNKS) as u8
    }

    /// Whether the size is 1, 2, 4 or 8, the address is below 2^36 and a multiple of the size, and the number of a
    /// store fits the size.
    pub fn is_lawful(&self) -> bool
        ensures { result ≡ is_lawful_access self.now }
    {
        match self {
            Access::Load { size, addr } => is_place(*size, *addr),
            Access::Store { size, addr, value } => {
                is_place(*size, *addr) && fits(*size, value.number())
            }
        }
    }
}

/// Whether so many bytes may be accessed at this address.
fn is_place(size: u8, addr: u64) -> bool
    ensures { result ≡ is_place size addr }
{
    matches!(size, 1 | 2 | 4 | 8) && addr < ADDRESS_LIMIT && addr % u64::from(size) == 0
}

/// Whether a number is one of so many bytes.
pub fn fits(size: u8, number: u64) -> bool
    requires { IsTrue (is_size size) }
    ensures { result ≡ fits size number }
{
    match size {
        1 => number < 0x100,
        2 => number < 0x1_0000,
        4 => number < 0x1_0000_0000,
        _ => true,
    }
}

/// One byte of memory as a run begins.
#[derive(Clone, Copy, Debug, PartialEq, Eq)]
pub struct Setting {
    pub addr: u64,
    pub byte: u8,
}
