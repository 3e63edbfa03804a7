//! The reading of a header.
ghost use Rattle.std.specs.Prelude.{◌≡◌, ◌≤◌, ◌<◌, ◌+◌, ◌^◌, ◌++◌, ℕ, List, Err, Some, IsTrue, IfOk, OnOk, length, map};
ghost use Rattle.fsb_io.specs.Faults.{Rose};
ghost use Rattle.scope_way.specs.Variables.{shown_by, shown_from};
ghost use Rattle.vcd_header.specs.Standing.{declared_of, remarks_of};
ghost use Rattle.vcd_header.specs.Told.{sections_told};
ghost use Rattle.scope_watch.specs.Heading.{Opens, Closes, IsReady, IsHeaded, IsReadUp, IsEnded, IsBegunWith, HasCopied};

use crate::feed::feed;
use crate::header::{Begun, Behind, Header};
use crate::laws::faults_stay;
use crate::parts::{sections_of, variables_of};
use crate::piece::{read_piece, read_rest};
use crate::preface::PrefaceReader;
use crate::stop::ScopeStop;
use fsb_io::{Failed, Source};
use std::alloc::{AllocError, Global};
use vcd_cut::Cutter;
use vcd_header::{HeaderReader, HeaderRules, HeaderStop};
use vcd_joined::texts_end_as_the_readers_say;

/// What is let pass in the header of any tool's dump.
const HEADER_RULES: HeaderRules = HeaderRules {
    widest: 4_294_967_295,
    skips_preface: true,
};

/// Begins the source under the name and reads up to the end of its header, in pieces that fit the room. The piece in
/// which the header ends is kept. A fault is told once the source was read to its end. A text that is no dump is read no
/// further than the piece that shows it.
pub fn read_header<S: Source>(
    alloc: Global,
    name: &str,
    source: &mut S,
    room: &mut [u8],
) -> Result<Begun, ScopeStop>
    requires named { length name.now ≤ 4096 }
    requires some { 0 < length room.old }
    ensures ready { IfOk result (λ begun. IsReady begun.behind) }
    ensures read { IsTrue S.tells → IsHeaded result (S.holds source.old) (S.left source.new) }
    ensures named { IsTrue S.tells → OnOk result (S.begun_as source.new ≡ Some name.now) }
    ensures len { length room.new ≡ length room.old }
    ensures read_fault { result ≡ Err ScopeStop.ReadFault →
        Rose (S.faults source.old) (S.faults source.new) }
    ensures later { S.faults source.old ≤ S.faults source.new }
    ensures holds_stays { IsTrue S.tells → S.holds source.new ≡ S.holds source.old }
{
    texts_end_as_the_readers_say();
    faults_stay();
    match source.begin(name) {
        Ok(()) => read_left(alloc, source, room),
        Err(Failed) => Err(ScopeStop::ReadFault),
    }
}

/// The header of what is left of the source.
fn read_left<S: Source>(alloc: Global, source: &mut S, room: &mut [u8]) -> Result<Begun, ScopeStop>
    requires some { 0 < length room.old }
    ensures ready { IfOk result (λ begun. IsReady begun.behind) }
    ensures read { IsTrue S.tells → IsReadUp result (S.left source.old) (S.left source.new) }
    ensures len { length room.new ≡ length room.old }
    ensures read_fault { result ≡ Err ScopeStop.ReadFault →
        Rose (S.faults source.old) (S.faults source.new) }
    ensures later { S.faults source.old ≤ S.faults source.new }
    ensures name_stays { IsTrue S.tells → S.begun_as source.new ≡ S.begun_as source.old }
    ensures holds_stays { IsTrue S.tells → S.holds source.new ≡ S.holds source.old }
{
    let mut reader = HeaderReader::new(alloc, HEADER_RULES)?;
    let mut preface = PrefaceReader::new();
    let mut taken: u64 = 0;
    'pieces: loop {
        let count = read_piece(source, taken, room)?;
        if count == 0 {
            return at_end(alloc, &mut reader, taken);
        }
        taken += count as u64;
        preface.take(&room[..count]);
        if preface.is_too_long() {
            return Err(ScopeStop::NoHeader);
        }
        match feed(&mut reader, &room[..count]) {
            Ok(None) => {}
            Ok(Some(used)) => return inside(alloc, reader, &room[used..count], taken),
            Err(HeaderStop::Memory) => return Err(ScopeStop::Memory),
            Err(HeaderStop::Bad(fault)) => {
                read_rest(source, taken, room)?;
                return Err(ScopeStop::Bad(fault));
            }
        }
    }
}

/// The header, where these bytes of its piece stand behind it.
fn inside(alloc: Global, reader: HeaderReader, rest: &[u8], taken: u64) -> Result<Begun, ScopeStop>
    requires { (head : List ℕ) × Closes reader head
        × (length head + length rest.now ≤ taken) × (taken ≤ 2 ^ 40) }
    ensures ready { IfOk result (λ begun. IsReady begun.behind) }
    ensures begun { (head : List ℕ) → Closes reader head →
        IsBegunWith result head rest.now taken }
{
    let header = header_of(alloc, &reader)?;
    let rest = Vec::from_slice(alloc, rest)?;
    Ok(Begun {
        header,
        behind: Behind {
            cutter: reader.into_cutter(),
            rest,
            taken,
        },
    })
}

/// The header of a text of so many bytes that ends before its header is over, or with it.
fn at_end(alloc: Global, reader: &mut HeaderReader, taken: u64) -> Result<Begun, ScopeStop>
    requires { (fed : List ℕ) × Opens reader.old fed × (length fed ≤ taken) × (taken ≤ 2 ^ 40) }
    ensures ready { IfOk result (λ begun. IsReady begun.behind) }
    ensures ended { (fed : List ℕ) → Opens reader.old fed → IsEnded result fed taken }
{
    match reader.finish() {
        Ok(()) => {}
        Err(HeaderStop::Memory) => return Err(ScopeStop::Memory),
        Err(HeaderStop::Bad(fault)) => return Err(ScopeStop::Bad(fault)),
    }
    let header = header_of(alloc, reader)?;
    let cutter = Cutter::new(alloc)?;
    Ok(Begun {
        header,
        behind: Behind {
            cutter,
            rest: Vec::new(alloc),
            taken,
        },
    })
}

/// What a reader has gathered.
fn header_of(alloc: Global, reader: &HeaderReader) -> Result<Header, AllocError>
    ensures { IfOk result (HasCopied reader.now) }
{
    let variables = variables_of(alloc, reader.declarations())?;
    let remarks = sections_of(alloc, reader.remarks())?;
    Ok(Header { variables, remarks })
}
