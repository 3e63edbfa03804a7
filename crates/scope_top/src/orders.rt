//! What an order asks for, done.

ghost use Rattle.std.specs.Prelude.{◌≡◌, ◌≤◌, ◌⊎◌, Err, IsTrue, IfErr, IfOk, Ok, length};
ghost use Rattle.std.specs.Result.{is_err};
ghost use Rattle.fsb_io.specs.Faults.{Rose};
ghost use Rattle.scope_words.specs.Orders.{KeepsLimits, KeepsViews, KeepsWires};
ghost use Rattle.scope_top.specs.Performing.{Ends, EndsCheck, EndsCoherence, EndsLines, EndsPick, EndsTable};
ghost use Rattle.scope_top.specs.Viewing.{Files, IsUncopied, MayStop};

use crate::answer::{Answer, Stream, hand_err, hand_out};
use crate::check::check_answer;
use crate::coherence::coherence_answer;
use crate::lines::lines_answer;
use crate::pick::pick_answer;
use crate::stop::{Ended, Stop};
use crate::table::table_answer;
use fsb_io::{Sink, Source};
use scope_report::{Ending, rule_list, rule_text};
use scope_words::{Order, Part, TableForm, Views, Wires};
use std::alloc::{AllocError, Global};

/// Does what the order asks for. The answer goes to `out`; a refusal, and why a file says nothing, to `err`. `named` is the
/// file of `--lines`, `dump` the dump. Where an order names a time, the dump is begun twice. `is_again` says that the dump
/// can be begun again at any time and then gives the same: a check that rejects it then reads it once more for the reasons,
/// which `explained_of` answers, and for each other way to sample it, and tells those in which it gets further, which
/// `hints_of` answers. That changes no ending.
///
/// Where a check finds a rule broken, and the words name files that show it, `save` and `cut` are begun under these names,
/// and the dump is read again for them, whatever `is_again` says: the report is told, and then why a file was not written.
/// Else neither is begun.
///
/// How it ends is one relation, `Ends`, with a row for each form of an order. Where it comes to no end, the source or the
/// sink that it names has failed in this call, or memory lacked.
pub fn perform<L: Source, S: Source, O: Sink, E: Sink, V: Sink, C: Sink>(
    alloc: Global,
    order: Order<'_>,
    is_again: bool,
    named: &mut L,
    dump: &mut S,
    out: &mut O,
    err: &mut E,
    save: &mut V,
    cut: &mut C,
) -> Result<Ended, Stop>
    requires { KeepsLimits order }
    ensures ends { IsTrue L.tells → IsTrue S.tells → IsTrue O.tells → IsTrue V.tells →
        IsTrue C.tells → IfOk result (λ ended. Ends order.entry (L.holds named.old)
        (S.holds dump.old) (O.holds out.old) (O.holds out.new) (record {
          save_old = V.holds save.old;
          save_new = V.holds save.new;
          cut_old = C.holds cut.old;
          cut_new = C.holds cut.new;
        }) (is_err ended.shown) ended.ending) }
    ensures lines_fault { result ≡ Err Stop.Lines →
        Rose (L.faults named.old) (L.faults named.new) }
    ensures dump_fault { result ≡ Err Stop.Dump → Rose (S.faults dump.old) (S.faults dump.new) }
    ensures out_fault { IsTrue S.tells → result ≡ Err Stop.Out →
        Rose (O.faults out.old) (O.faults out.new) ⊎ Rose (E.faults err.old) (E.faults err.new) }
    ensures shown { IfOk result (λ ended. IfErr ended.shown
        (MayStop (Rose (S.faults dump.old) (S.faults dump.new))
        (Rose (V.faults save.old) (V.faults save.new))
        (IsTrue S.tells → Rose (C.faults cut.old) (C.faults cut.new))
        (IsTrue S.tells → IsTrue C.tells → IsUncopied (S.holds dump.old)))) }
{
    match order {
        Order::Rule { number } => told(tell_rule(alloc, number, out, err)),
        Order::Lines { dump: name } => told(tell_lines(alloc, name, dump, out, err)),
        Order::Check {
            wires,
            part,
            views,
            dump: name,
        } => check(
            alloc, name, wires, &part, views, is_again, named, dump, out, err, save, cut,
        ),
        Order::Coherence {
            wires,
            part,
            dump: name,
        } => told(cohere(alloc, name, wires, &part, named, dump, out, err)),
        Order::Table {
            wires,
            part,
            form,
            dump: name,
        } => told(tell_table(alloc, name, wires, &part, form, named, dump, out, err)),
        Order::Pick {
            wires,
            part,
            dump: name,
        } => told(pick(alloc, name, wires, &part, named, dump, out, err)),
    }
}

// A command that names no file to show what it found.
fn told(end: Result<Ending, Stop>) -> Result<Ended, Stop>
    ensures ok { IfOk end (λ ending. result ≡ Ok (record { ending = ending; shown = Ok tt })) }
    ensures err { IfErr end (λ stop. result ≡ Err stop) }
{
    match end {
        Ok(ending) => Ok(Ended {
            ending,
            shown: Ok(()),
        }),
        Err(stop) => Err(stop),
    }
}

// Tells a rule, or the titles of all.
fn tell_rule<O: Sink, E: Sink>(
    alloc: Global,
    number: Option<u8>,
    out: &mut O,
    err: &mut E,
) -> Result<Ending, Stop>
    ensures ends { IfOk result (λ ending. ending ≡ Ending.Clean) }
    ensures stop { (stop : Stop) → result ≡ Err stop →
        (stop ≡ Stop.Memory) ⊎ (stop ≡ Stop.Out) }
    ensures out_fault { result ≡ Err Stop.Out →
        Rose (O.faults out.old) (O.faults out.new) ⊎ Rose (E.faults err.old) (E.faults err.new) }
{
    let answer = rule_answer(alloc, number)?;
    hand_out(&answer, out, err)
}

// Tells what a dump declares.
fn tell_lines<S: Source, O: Sink, E: Sink>(
    alloc: Global,
    name: &str,
    dump: &mut S,
    out: &mut O,
    err: &mut E,
) -> Result<Ending, Stop>
    requires { length name.now ≤ 4096 }
    ensures ends { IsTrue S.tells → IfOk result (EndsLines (S.holds dump.old)) }
    ensures not_lines { result ≡ Err Stop.Lines → ⊥ }
    ensures dump_fault { result ≡ Err Stop.Dump → Rose (S.faults dump.old) (S.faults dump.new) }
    ensures out_fault { result ≡ Err Stop.Out →
        Rose (O.faults out.old) (O.faults out.new) ⊎ Rose (E.faults err.old) (E.faults err.new) }
{
    let answer = lines_answer(alloc, name, dump)?;
    hand_out(&answer, out, err)
}

// Judges the parts of a dump that the words name, tells what was found, and says why a file that shows it is not written.
fn check<L: Source, S: Source, O: Sink, E: Sink, V: Sink, C: Sink>(
    alloc: Global,
    name: &str,
    wires: Wires<'_>,
    words: &Part,
    views: Views<'_>,
    is_again: bool,
    named: &mut L,
    dump: &mut S,
    out: &mut O,
    err: &mut E,
    save: &mut V,
    cut: &mut C,
) -> Result<Ended, Stop>
    requires named { length name.now ≤ 4096 }
    requires wires { KeepsWires wires }
    requires views { KeepsViews views }
    ensures ends { IsTrue L.tells → IsTrue S.tells → IsTrue V.tells → IsTrue C.tells →
        IfOk result (λ ended.
        EndsCheck wires.entry words.now (L.holds named.old) (S.holds dump.old) (record {
          name = name.now;
          views = views.entry;
          files = record {
            save_old = V.holds save.old;
            save_new = V.holds save.new;
            cut_old = C.holds cut.old;
            cut_new = C.holds cut.new;
          };
          is_unwritten = is_err ended.shown;
        }) ended.ending) }
    ensures lines_fault { result ≡ Err Stop.Lines →
        Rose (L.faults named.old) (L.faults named.new) }
    ensures dump_fault { result ≡ Err Stop.Dump → Rose (S.faults dump.old) (S.faults dump.new) }
    ensures out_fault { result ≡ Err Stop.Out →
        Rose (O.faults out.old) (O.faults out.new) ⊎ Rose (E.faults err.old) (E.faults err.new) }
    ensures shown { IfOk result (λ ended. IfErr ended.shown
        (MayStop (Rose (S.faults dump.old) (S.faults dump.new))
        (Rose (V.faults save.old) (V.faults save.new))
        (IsTrue S.tells → Rose (C.faults cut.old) (C.faults cut.new))
        (IsTrue S.tells → IsTrue C.tells → IsUncopied (S.holds dump.old)))) }
{
    let viewed = check_answer(
        alloc, name, wires, words, views, is_again, named, dump, save, cut,
    )?;
    let ending = hand_out(&viewed.answer, out, err)?;
    let shown = viewed.shown;
    Ok(Ended { ending, shown })
}

// Judges the coherence of the part of a dump that the words name.
fn cohere<L: Source, S: Source, O: Sink, E: Sink>(
    alloc: Global,
    name: &str,
    wires: Wires<'_>,
    words: &Part,
    named: &mut L,
    dump: &mut S,
    out: &mut O,
    err: &mut E,
) -> Result<Ending, Stop>
    requires named { length name.now ≤ 4096 }
    requires wires { KeepsWires wires }
    ensures ends { IsTrue L.tells → IsTrue S.tells → IfOk result
        (EndsCoherence wires.entry words.now (L.holds named.old) (S.holds dump.old)) }
    ensures lines_fault { result ≡ Err Stop.Lines →
        Rose (L.faults named.old) (L.faults named.new) }
    ensures dump_fault { result ≡ Err Stop.Dump → Rose (S.faults dump.old) (S.faults dump.new) }
    ensures out_fault { result ≡ Err Stop.Out →
        Rose (O.faults out.old) (O.faults out.new) ⊎ Rose (E.faults err.old) (E.faults err.new) }
{
    let answer = coherence_answer(alloc, name, wires, words, named, dump)?;
    hand_out(&answer, out, err)
}

// Writes the requests of the part of a dump that the words name, and tells where their table ends early.
fn tell_table<L: Source, S: Source, O: Sink, E: Sink>(
    alloc: Global,
    name: &str,
    wires: Wires<'_>,
    words: &Part,
    form: TableForm,
    named: &mut L,
    dump: &mut S,
    out: &mut O,
    err: &mut E,
) -> Result<Ending, Stop>
    requires named { length name.now ≤ 4096 }
    requires wires { KeepsWires wires }
    ensures ends { IsTrue L.tells → IsTrue S.tells → IsTrue O.tells →
        IfOk result (EndsTable wires.entry words.now form (L.holds named.old)
        (S.holds dump.old) (O.holds out.old) (O.holds out.new)) }
    ensures lines_fault { result ≡ Err Stop.Lines →
        Rose (L.faults named.old) (L.faults named.new) }
    ensures dump_fault { result ≡ Err Stop.Dump → Rose (S.faults dump.old) (S.faults dump.new) }
    ensures out_fault { IsTrue S.tells → result ≡ Err Stop.Out →
        Rose (O.faults out.old) (O.faults out.new) ⊎ Rose (E.faults err.old) (E.faults err.new) }
{
    let answer = table_answer(alloc, name, wires, words, form, named, dump, out)?;
    hand_err(&answer, err)
}

// Writes the part of a dump that the words name, and tells what was not written.
fn pick<L: Source, S: Source, O: Sink, E: Sink>(
    alloc: Global,
    name: &str,
    wires: Wires<'_>,
    words: &Part,
    named: &mut L,
    dump: &mut S,
    out: &mut O,
    err: &mut E,
) -> Result<Ending, Stop>
    requires named { length name.now ≤ 4096 }
    requires wires { KeepsWires wires }
    ensures ends { IsTrue L.tells → IsTrue S.tells → IsTrue O.tells →
        IfOk result (EndsPick wires.entry words.now (L.holds named.old) (S.holds dump.old)
        (O.holds out.old) (O.holds out.new)) }
    ensures lines_fault { result ≡ Err Stop.Lines →
        Rose (L.faults named.old) (L.faults named.new) }
    ensures dump_fault { result ≡ Err Stop.Dump → Rose (S.faults dump.old) (S.faults dump.new) }
    ensures out_fault { IsTrue S.tells → result ≡ Err Stop.Out →
        Rose (O.faults out.old) (O.faults out.new) ⊎ Rose (E.faults err.old) (E.faults err.new) }
{
    let answer = pick_answer(alloc, name, wires, words, named, dump, out)?;
    hand_err(&answer, err)
}

// Tells a rule, or the titles of all.
fn rule_answer(alloc: Global, number: Option<u8>) -> Result<Answer, AllocError>
    ensures { IfOk result (λ answer. answer.ending ≡ Ending.Clean) }
{
    let text = match number {
        None => rule_list(alloc)?,
        Some(rule) => Vec::from_slice(alloc, rule_text(rule).unwrap_or("").as_bytes())?,
    };
    Ok(Answer {
        ending: Ending::Clean,
        stream: Stream::Out,
        text,
    })
}
