//! The files that show a broken rule.

ghost use Rattle.std.specs.Prelude.{◌≡◌, ◌≤◌, ◌<◌, ◌⊎◌, ◌-◌, Err, IsTrue, IfErr, IfOk, IfSome, OnErr, OnOk, length};
ghost use Rattle.std.specs.Option.{ForSome};
ghost use Rattle.fsb_io.specs.Faults.{HasCause, Rose};
ghost use Rattle.scope_clock.specs.Times.{IsClockTime};
ghost use Rattle.scope_watch.specs.Watching.{rules_for};
ghost use Rattle.scope_words.specs.Orders.{KeepsViews};
ghost use Rattle.scope_top.specs.Viewing.{CutsAs, Files, HoldsCut, HoldsSave, IsCutBehind, IsUncopied, MayStop, SavesAs, ShowsFinding, uncut};

use crate::broken::{BrokenAt, first_broken, mark_at, part_around};
use crate::stop::ViewStop;
use crate::stopped::PIECE;
use fsb_io::{Failed, Sink, Source, put_all};
use scope_clock::clock_time;
use scope_copy::copy_dump;
use scope_save::save_text;
use scope_time::scale_of;
use scope_watch::{Checked, Finding, Header, Sampling, ScopeStop};
use scope_wiring::{Choice, Wiring};
use scope_words::Views;
use std::alloc::{AllocError, Global};

/// How a dump is sampled once more.
pub(crate) fn same_sampling(sampling: &Sampling) -> Result<Sampling, AllocError>
    ensures { IfOk result (λ s. rules_for s ≡ rules_for sampling.now) }
{
    Ok(Sampling {
        edge: sampling.edge,
        takes_first: sampling.takes_first,
        late: sampling.late.clone()?,
    })
}

/// Writes the files that the words name, where a rule was found broken.
pub(crate) fn show_found<S: Source, V: Sink, C: Sink>(
    alloc: Global,
    name: &str,
    choice: &Choice,
    sampling: &Sampling,
    views: Views<'_>,
    checked: &Checked,
    dump: &mut S,
    save: &mut V,
    cut: &mut C,
) -> Result<(), ViewStop>
    requires named { length name.now ≤ 4096 }
    requires views { KeepsViews views }
    ensures shown { IsTrue S.tells → IsTrue V.tells → IsTrue C.tells → OnOk result
        (ShowsFinding views.entry choice.now sampling.now (S.holds dump.old) name.now
        checked.now.header checked.now.finding (record {
          save_old = V.holds save.old;
          save_new = V.holds save.new;
          cut_old = C.holds cut.old;
          cut_new = C.holds cut.new;
        })) }
    ensures stop { IfErr result (MayStop (Rose (S.faults dump.old) (S.faults dump.new))
        (Rose (V.faults save.old) (V.faults save.new))
        (IsTrue S.tells → Rose (C.faults cut.old) (C.faults cut.new))
        (IsTrue S.tells → IsTrue C.tells → IsUncopied (S.holds dump.old))) }
{
    match &checked.finding {
        Finding::Refused(_) => Ok(()),
        Finding::Judged(wiring, told) => match first_broken(&told.judged.faults) {
            None => Ok(()),
            Some(broken) => {
                save_broken(
                    alloc,
                    name,
                    choice,
                    sampling,
                    views.save,
                    &checked.header,
                    wiring,
                    broken,
                    dump,
                    save,
                )?;
                cut_broken(alloc, name, choice, sampling, views.cut, broken, dump, cut)
            }
        },
    }
}

// Writes the save file of a broken clock, where one is named.
fn save_broken<S: Source, V: Sink>(
    alloc: Global,
    name: &str,
    choice: &Choice,
    sampling: &Sampling,
    file: Option<&str>,
    header: &Header,
    wiring: &Wiring,
    broken: BrokenAt,
    dump: &mut S,
    save: &mut V,
) -> Result<(), ViewStop>
    requires named { length name.now ≤ 4096 }
    requires file { ForSome file (λ file. length file.now ≤ 4096) }
    ensures saved { IsTrue S.tells → IsTrue V.tells → OnOk result
        (SavesAs file.entry choice.now sampling.now (S.holds dump.old) name.now header.now wiring.now
        broken (V.holds save.old) (V.holds save.new)) }
    ensures stop { IfErr result (λ stop. (stop ≡ ViewStop.Memory)
        ⊎ ((stop ≡ ViewStop.Save) × Rose (V.faults save.old) (V.faults save.new))) }
    ensures later { S.faults dump.old ≤ S.faults dump.new }
    ensures holds_stays { IsTrue S.tells → S.holds dump.new ≡ S.holds dump.old }
{
    match file {
        None => Ok(()),
        Some(file) => save_as(
            alloc, name, choice, sampling, file, header, wiring, broken, dump, save,
        ),
    }
}

fn save_as<S: Source, V: Sink>(
    alloc: Global,
    name: &str,
    choice: &Choice,
    sampling: &Sampling,
    file: &str,
    header: &Header,
    wiring: &Wiring,
    broken: BrokenAt,
    dump: &mut S,
    save: &mut V,
) -> Result<(), ViewStop>
    requires named { length name.now ≤ 4096 }
    requires file { length file.now ≤ 4096 }
    ensures saved { IsTrue S.tells → IsTrue V.tells → OnOk result
        (HoldsSave choice.now sampling.now (S.holds dump.old) name.now header.now wiring.now
        broken (V.holds save.new)) }
    ensures stop { IfErr result (λ stop. (stop ≡ ViewStop.Memory)
        ⊎ ((stop ≡ ViewStop.Save) × Rose (V.faults save.old) (V.faults save.new))) }
    ensures later { S.faults dump.old ≤ S.faults dump.new }
    ensures holds_stays { IsTrue S.tells → S.holds dump.new ≡ S.holds dump.old }
{
    let again = same_sampling(sampling)?;
    let before = time_before(alloc, name, choice, again, broken.clock, dump)?;
    let scale = scale_of(alloc, &header.remarks)?;
    let mark = mark_at(broken, before, scale);
    let text = save_text(alloc, name, &header.variables, &wiring.wires, mark)?;
    match put_file(save, file, &text) {
        Ok(()) => Ok(()),
        Err(Failed) => Err(ViewStop::Save),
    }
}

// The time of the clock before this one, if there is one and the dump can be read for it.
fn time_before<S: Source>(
    alloc: Global,
    name: &str,
    choice: &Choice,
    sampling: Sampling,
    clock: u64,
    dump: &mut S,
) -> Result<Option<u64>, AllocError>
    requires { length name.now ≤ 4096 }
    ensures before { IsTrue S.tells → IfOk result (λ before.
        IfSome before (IsClockTime choice.now sampling (S.holds dump.old) (clock - 1))) }
    ensures later { S.faults dump.old ≤ S.faults dump.new }
    ensures holds_stays { IsTrue S.tells → S.holds dump.new ≡ S.holds dump.old }
{
    if clock == 0 {
        return Ok(None);
    }
    let mut room = vec![in alloc; 0; PIECE]?;
    match clock_time(alloc, name, dump, &mut room, choice, sampling, clock - 1) {
        Ok(time) => Ok(time),
        Err(_stop) => Ok(None),
    }
}

// Begins the sink under the name, and writes the text to it.
fn put_file<D: Sink>(sink: &mut D, name: &str, text: &[u8]) -> Result<(), Failed>
    requires { length name.now ≤ 4096 }
    ensures whole { IsTrue D.tells → OnOk result (D.holds sink.new ≡ text.now) }
    ensures cause { HasCause (D.faults sink.old) (D.faults sink.new) result }
{
    sink.begin(name)?;
    put_all(sink, text)
}

// Writes the clocks around a broken one, where a file is named.
fn cut_broken<S: Source, C: Sink>(
    alloc: Global,
    name: &str,
    choice: &Choice,
    sampling: &Sampling,
    file: Option<&str>,
    broken: BrokenAt,
    dump: &mut S,
    cut: &mut C,
) -> Result<(), ViewStop>
    requires named { length name.now ≤ 4096 }
    requires file { ForSome file (λ file. length file.now ≤ 4096) }
    ensures cut { IsTrue S.tells → IsTrue C.tells → OnOk result
        (CutsAs file.entry choice.now sampling.now (S.holds dump.old) broken (C.holds cut.old)
        (C.holds cut.new)) }
    ensures stop { IfErr result (MayStop (Rose (S.faults dump.old) (S.faults dump.new)) ⊥
        (IsTrue S.tells → Rose (C.faults cut.old) (C.faults cut.new))
        (IsTrue S.tells → IsTrue C.tells → IsUncopied (S.holds dump.old))) }
{
    match file {
        None => Ok(()),
        Some(file) => cut_as(alloc, name, choice, sampling, file, broken, dump, cut),
    }
}

fn cut_as<S: Source, C: Sink>(
    alloc: Global,
    name: &str,
    choice: &Choice,
    sampling: &Sampling,
    file: &str,
    broken: BrokenAt,
    dump: &mut S,
    cut: &mut C,
) -> Result<(), ViewStop>
    requires named { length name.now ≤ 4096 }
    requires file { length file.now ≤ 4096 }
    ensures cut { IsTrue S.tells → IsTrue C.tells → OnOk result
        (HoldsCut choice.now sampling.now (S.holds dump.old) broken (C.holds cut.new)) }
    ensures stop { IfErr result (MayStop (Rose (S.faults dump.old) (S.faults dump.new)) ⊥
        (IsTrue S.tells → Rose (C.faults cut.old) (C.faults cut.new))
        (IsTrue S.tells → IsTrue C.tells → IsUncopied (S.holds dump.old))) }
{
    let again = same_sampling(sampling)?;
    let mut room = vec![in alloc; 0; PIECE]?;
    match cut.begin(file) {
        Err(Failed) => Err(ViewStop::Cut),
        Ok(()) => copy_around(alloc, name, choice, again, &mut room, broken, dump, cut),
    }
}

// Writes the clocks around a broken one behind what the sink holds.
fn copy_around<S: Source, C: Sink>(
    alloc: Global,
    name: &str,
    choice: &Choice,
    again: Sampling,
    room: &mut [u8],
    broken: BrokenAt,
    dump: &mut S,
    cut: &mut C,
) -> Result<(), ViewStop>
    requires named { length name.now ≤ 4096 }
    requires some { 0 < length room.old }
    ensures cut { IsTrue S.tells → IsTrue C.tells → OnOk result
        (IsCutBehind choice.now again (S.holds dump.old) broken (C.holds cut.old)
        (C.holds cut.new)) }
    ensures stop { IfErr result (MayStop (Rose (S.faults dump.old) (S.faults dump.new)) ⊥
        (IsTrue S.tells → Rose (C.faults cut.old) (C.faults cut.new))
        (IsTrue S.tells → IsTrue C.tells → IsUncopied (S.holds dump.old))) }
{
    let part = part_around(broken);
    match copy_dump(alloc, name, dump, room, choice, part, again, cut) {
        Ok(_copied) => Ok(()),
        Err(stop) => Err(uncut(stop)),
    }
}

// Why the clocks around a broken one are not written, where their copy stopped so.
fn uncut(stop: ScopeStop) -> ViewStop
    ensures { result ≡ uncut stop }
{
    match stop {
        ScopeStop::Memory => ViewStop::Memory,
        ScopeStop::ReadFault => ViewStop::Dump,
        ScopeStop::WriteFault => ViewStop::Cut,
        ScopeStop::Bad(_) | ScopeStop::NoHeader | ScopeStop::TooLong | ScopeStop::TooMany => {
            ViewStop::Changed
        }
    }
}
