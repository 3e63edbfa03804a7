//! What a command line asks for, as a text.

use fsb_io::Memory;
use scope_words::{Order, Reading, Wires, read_order};
use std::alloc::{AllocError, Global};

/// What the words of a line, with bars between them, ask for. An empty line has no words.
pub(crate) fn read(alloc: Global, line: &str) -> Result<String, Memory> {
    let mut words = Vec::new(alloc);
    if !line.is_empty() {
        for word in line.split("|") {
            words.push(String::from_str(alloc, word)?)?;
        }
    }
    match read_order(alloc, &words)? {
        Reading::Told(told) => {
            let stream = if told.is_error { "error" } else { "output" };
            let (status, text) = (told.status(), told.text.as_str());
            Ok(format!(in alloc; "status {status}, standard {stream}\n{text}")?)
        }
        Reading::Order(order) => Ok(said_order(alloc, &order)?),
    }
}

// An order: its verb and its dump, and a line each for the wires, the part and the views.
fn said_order(alloc: Global, order: &Order<'_>) -> Result<String, AllocError> {
    let (verb, dump, wires, part) = match order {
        Order::Lines { dump } => return format!(in alloc; "lines {dump}\n"),
        Order::Rule { number } => return format!(in alloc; "rule {number:?}\n"),
        Order::Check {
            wires,
            part,
            dump,
            ..
        } => ("check", dump, wires, part),
        Order::Coherence { wires, part, dump } => ("coherence", dump, wires, part),
        Order::Table {
            wires,
            part,
            dump,
            ..
        } => ("table", dump, wires, part),
        Order::Pick { wires, part, dump } => ("pick", dump, wires, part),
    };
    let wires = said_wires(alloc, wires)?;
    let mut text = format!(in alloc; "{verb} {dump}\n{wires}{part:?}\n")?;
    match order {
        Order::Check { views, .. } => write!(text, "{views:?}\n")?,
        Order::Table { form, .. } => write!(text, "{form:?}\n")?,
        _ => {}
    }
    Ok(text)
}

fn said_wires(alloc: Global, wires: &Wires<'_>) -> Result<String, AllocError> {
    let mut text = String::new(alloc);
    if let Some(scope) = &wires.choice.scope {
        let scope = std::str::from_utf8(scope).unwrap_or("no text");
        write!(text, "scope {scope}\n")?;
    }
    for option in &wires.choice.lines {
        let (line, inverted) = (option.line, option.inverted);
        let target = std::str::from_utf8(&option.target).unwrap_or("no text");
        write!(text, "line {line}, inverted {inverted}, target {target}\n")?;
    }
    let (without, after) = (&wires.choice.without, &wires.after);
    let (file, edge, first) = (wires.file, wires.edge, wires.is_first);
    write!(
        text,
        "without {without:?}, file {file:?}, edge {edge:?}, first {first}, after {after:?}\n"
    )?;
    Ok(text)
}
