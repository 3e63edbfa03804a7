ghost use Rattle.std.specs.Prelude.{◌≡◌, ℕ, ◌+◌, ◌%◌, ◌^◌, ◌<◌, ◌≤◌, IsTrue, IfOk, OnOk, OnErr, IsOk, length, take};
ghost use Rattle.fsb_access.specs.Access.{is_place, IsLawfulAccess};
ghost use Rattle.fsb_access.specs.ByteMemory.{value_of_bytes, put_bytes, set_memory};
ghost use Rattle.fsb_access.specs.FlatView.{chunk_bytes, memory_of_chunks, state_of};
ghost use Rattle.fsb_access.specs.Replay.{start_of, served_value, served_state};

use crate::access::{Access, CHUNK_BYTES, Operand, Setting};
use crate::put::number_put;
use fsb_io::Memory;
use std::alloc::Global;
use std::collections::BTreeMap;
use std::marker::Model;

/// One byte memory that all agents share, and the value that each of them loaded last: a replay as a program.
#[derive(Debug, Drop)]
pub struct Flat {
    /// The bytes of each chunk that was put to, by the chunk's number: its address divided by eight.
    chunks: BTreeMap<u64, [u8; 8]>,
    /// The value that each agent loaded last, 0 before any load.
    last: [u64; 4],
}

impl Model for Flat {
    ghost use Rattle.fsb_access.specs.FlatView.{FlatView};

    ghost Value = { FlatView };

    ghost view = { λ flat. record { chunks = flat.chunks.entries; last = flat.last } };
}

impl Flat {
    /// The memory that the settings make, before any access: later settings win, and all other bytes are 0.
    pub fn new(alloc: Global, sets: &[Setting]) -> Result<Flat, Memory>
        ensures { IfOk result (λ flat. state_of flat ≡ start_of sets.now) }
    {
        let mut flat = Flat {
            chunks: BTreeMap::new(alloc),
            last: [0; 4],
        };
        let mut done = 0;
        while done < sets.len() {
            done += flat.set(&sets[done..])?;
        }
        Ok(flat)
    }

    /// Serves one access: the value that is loaded or stored. After `Memory` nothing changed. A load takes no memory.
    pub fn serve(&mut self, agent: u8, access: &Access) -> Result<u64, Memory>
        requires symmetric { agent < 4 }
        requires lawful { IsLawfulAccess access.now }
        ensures value { IfOk result (λ value.
            value ≡ served_value (state_of self.old) agent access.now) }
        ensures moves { OnOk result (
            state_of self.new ≡ served_state (state_of self.old) agent access.now) }
        ensures stays { OnErr result (self.new ≡ self.old) }
        ensures loads { (size addr : ℕ) → access.now ≡ Access.Load size addr → IsOk result }
    {
        match access {
            Access::Load { size, addr } => Ok(self.load(agent, *size, *addr)),
            Access::Store { size, addr, value } => self.store(agent, *size, *addr, value),
        }
    }

    /// A load of so many bytes at this address.
    fn load(&mut self, agent: u8, size: u8, addr: u64) -> u64
        requires symmetric { agent < 4 }
        requires place { IsTrue (is_place size addr) }
        ensures value { result ≡ served_value (state_of self.old) agent (Access.Load size addr) }
        ensures moves { state_of self.new
            ≡ served_state (state_of self.old) agent (Access.Load size addr) }
    {
        let chunk = self.chunk(addr / CHUNK_BYTES);
        let start = (addr % CHUNK_BYTES) as usize;
        let value = value_of(&chunk[start..start + usize::from(size)]);
        self.last[usize::from(agent)] = value;
        value
    }

    /// A store of so many bytes at this address.
    fn store(&mut self, agent: u8, size: u8, addr: u64, value: &Operand) -> Result<u64, Memory>
        requires symmetric { agent < 4 }
        requires place { IsTrue (is_place size addr) }
        ensures value { IfOk result (λ number.
            number ≡ served_value (state_of self.old) agent (Access.Store size addr value.now)) }
        ensures moves { OnOk result (
            state_of self.new ≡ served_state (state_of self.old) agent
            (Access.Store size addr value.now)) }
        ensures stays { OnErr result (self.new ≡ self.old) }
    {
        let number = number_put(size, self.last[usize::from(agent)], value);
        self.put(addr, &number.to_le_bytes()[..usize::from(size)])?;
        Ok(number)
    }

    /// Puts the first settings, those up to the first one of another chunk, and answers how many they are. The chunk
    /// is read once and put back once for all of them.
    fn set(&mut self, sets: &[Setting]) -> Result<usize, Memory>
        requires { 0 < length sets.now }
        ensures some { IfOk result (λ count. 0 < count) }
        ensures within { IfOk result (λ count. count ≤ length sets.now) }
        ensures put { IfOk result (λ count.
            memory_of_chunks self.new.chunks
            ≡ set_memory (memory_of_chunks self.old.chunks) (take count sets.now)) }
        ensures last { self.new.last ≡ self.old.last }
    {
        let number = sets[0].addr / CHUNK_BYTES;
        let mut chunk = self.chunk(number);
        let mut count = 0;
        while count < sets.len() && sets[count].addr / CHUNK_BYTES == number {
            chunk[(sets[count].addr % CHUNK_BYTES) as usize] = sets[count].byte;
            count += 1;
        }
        self.chunks.insert(number, chunk)?;
        Ok(count)
    }

    /// The bytes of a chunk.
    fn chunk(&self, number: u64) -> [u8; 8]
        ensures bytes { result ≡ chunk_bytes self.now.chunks number }
        ensures eight { length result ≡ 8 }
    {
        self.chunks.get(&number).copied().unwrap_or([0; 8])
    }

    /// Puts bytes that lie within one chunk. After `Memory` nothing changed.
    fn put(&mut self, addr: u64, bytes: &[u8]) -> Result<(), Memory>
        requires { addr % 8 + length bytes.now ≤ 8 }
        ensures put { OnOk result (
            memory_of_chunks self.new.chunks
            ≡ put_bytes (memory_of_chunks self.old.chunks) addr bytes.now) }
        ensures last { self.new.last ≡ self.old.last }
        ensures stays { OnErr result (self.new ≡ self.old) }
    {
        let number = addr / CHUNK_BYTES;
        let start = (addr % CHUNK_BYTES) as usize;
        let mut chunk = self.chunk(number);
        chunk[start..start + bytes.len()].copy_from_slice(bytes);
        self.chunks.insert(number, chunk)?;
        Ok(())
    }
}

/// The number that at most eight bytes spell, the lowest first.
pub fn value_of(bytes: &[u8]) -> u64
    requires { length bytes.now ≤ 8 }
    ensures value { result ≡ value_of_bytes bytes.now }
    ensures bound { result < 256 ^ length bytes.now }
{
    match bytes {
        [] => 0,
        [first, rest @ ..] => u64::from(*first) + 0x100 * value_of(rest),
    }
}
