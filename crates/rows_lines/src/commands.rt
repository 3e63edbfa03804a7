//! Command lines, and the command that each is.

use fsb_command::{Command, Task, Words, read_words};
use fsb_io::Memory;
use std::alloc::{AllocError, Global};

/// What a command asks for, but for its trigger: its verb, the names of files, and its numbers. No name is `-`.
fn told(alloc: Global, command: &Command<'_>) -> Result<String, AllocError> {
    let (verb, first, second, numbers) = match command {
        Command::Run { bench, dump } => ("run", *bench, dump.unwrap_or("-"), [0, 0, 0]),
        Command::Look { dump, task } => {
            let (verb, clocks) = asked(task);
            (verb, *dump, "-", clocks)
        }
        Command::Gen {
            seed,
            agents,
            items,
        } => (
            "gen",
            "-",
            "-",
            [*seed, u64::from(*agents), u64::from(*items)],
        ),
    };
    let [a, b, c] = numbers;
    format!(in alloc; "{verb} {first} {second} {a} {b} {c}")
}

/// What a task asks, but for its trigger: its verb and its clocks.
fn asked(task: &Task) -> (&'static str, [u64; 3]) {
    match task {
        Task::Check => ("check", [0, 0, 0]),
        Task::Audit => ("audit", [0, 0, 0]),
        Task::Show => ("show", [0, 0, 0]),
        Task::Find(_) => ("find", [0, 0, 0]),
        Task::Wave(range) => ("wave", [u64::from(range.from), u64::from(range.to), 0]),
    }
}

/// The words of a row, with a bar between them.
fn words_of(alloc: Global, row: &str) -> Result<Words, Memory> {
    let mut words = Words::new(alloc);
    for word in row.split("|") {
        words.push(alloc, word)?;
    }
    Ok(words)
}

/// Whether this is told of the words: what they ask for, or `none`.
fn is_told(alloc: Global, words: &Words, wanted: &str) -> Result<bool, Memory> {
    match read_words(alloc, words)? {
        Some(command) => Ok(told(alloc, &command)?.as_str() == wanted),
        None => Ok(wanted == "none"),
    }
}

/// Whether the words are kept in their order.
fn are_kept(words: &Words) -> bool {
    words.len() == 3
        && !words.is_empty()
        && words.word(1) == Some("first.bench")
        && words.word(3) == None
}

#[test]
fn words_keep_their_order(rt: HostRuntime) {
    let words = words_of(rt.alloc(), "run|first.bench|first.vcd").expect(&rt, "out of memory");
    assert!(rt; are_kept(&words));
}

/// Command lines of each form, and what each asks for; and at the bounds of what a plan is made from, where there is none.
const FORMS: &str = "\
run|a.bench=run a.bench - 0 0 0
run|a.bench|d.vcd=run a.bench d.vcd 0 0 0
run|run|run=run run run 0 0 0
run|x-|d-=run x- d- 0 0 0
check|d.vcd=check d.vcd - 0 0 0
check|help=check help - 0 0 0
audit|d.vcd=audit d.vcd - 0 0 0
show|d.vcd=show d.vcd - 0 0 0
find|d.vcd|ADS/<3:HITM=find d.vcd - 0 0 0
wave|d.vcd|0|63=wave d.vcd - 0 63 0
wave|d.vcd|4294967232|4294967295=wave d.vcd - 4294967232 4294967295 0
gen|0|1|1=gen - - 0 1 1
gen|00018446744073709551|0004|4096=gen - - 18446744073709551 4 4096
gen|18446744073709551615|1|1=gen - - 18446744073709551615 1 1
gen|18446744073709551616|1|1=none
gen|99999999999999999999|1|1=none
gen|00000000000000000007|1|1=gen - - 7 1 1
gen|000000000000000000007|1|1=none
gen|7|0|1=none
gen|7|4|1=gen - - 7 4 1
gen|7|5|1=none
gen|7|0004|1=gen - - 7 4 1
gen|7|00004|1=none
gen|7|4|0=none
gen|7|4|4096=gen - - 7 4 4096
gen|7|4|4097=none
gen|7|4|0001=gen - - 7 4 1
gen|7|4|00001=none
";

/// Whether what stands behind the `=` of a row is told of the words before it.
fn is_form(alloc: Global, row: &str) -> Result<bool, Memory> {
    match row.split_once("=") {
        Some((words, wanted)) => is_told(alloc, &words_of(alloc, words)?, wanted),
        None => Ok(false),
    }
}

#[test]
fn each_form_names_its_command(rt: HostRuntime) {
    for row in FORMS.lines() {
        assert!(rt; matches!(is_form(rt.alloc(), row), Ok(true)), "{row}");
    }
}

/// Words that have no form.
const NO_FORM: &str = "\
run

run|
run|-x
run|-x|d.vcd
run|--|a.bench
run|a.bench|-d.vcd
run|a.bench|
run|a.bench|d.vcd|more
run|a.bench|d.vcd|more|more
Run|a.bench
RUN|a.bench
runs|a.bench
ru|a.bench
checks|d.vcd
judge|d.vcd
-|a.bench
--help
-h
help
help|run
p6bench|run|a.bench
check
check|
check|-d.vcd
check|d.vcd|more
audit
audit|-d.vcd
audit|d.vcd|more
show
show|-d.vcd
show|d.vcd|more
find|d.vcd
find|d.vcd|
find|d.vcd|ads
find|d.vcd|ADS/
find|-d.vcd|ADS
find|d.vcd|ADS|HIT
wave|d.vcd
wave|d.vcd|0
wave|d.vcd|0|64
wave|d.vcd|5|4
wave|d.vcd|-1|4
wave|d.vcd||4
wave|d.vcd|0|00000000004
wave|d.vcd|4294967295|4294967296
wave|d.vcd|0|1|2
gen
gen|0
gen|0|1
gen|0|1|1|1
gen|0|1|
gen|-0|1|1
gen|+0|1|1
gen|0x1|1|1
gen|0|1 |1
";

/// Whether the words have no form.
fn is_none(alloc: Global, row: &str) -> Result<bool, Memory> {
    is_told(alloc, &words_of(alloc, row)?, "none")
}

#[test]
fn words_without_a_form(rt: HostRuntime) {
    let nothing = Words::new(rt.alloc());
    assert!(rt; matches!(is_told(rt.alloc(), &nothing, "none"), Ok(true)));
    for row in NO_FORM.lines() {
        assert!(rt; matches!(is_none(rt.alloc(), row), Ok(true)), "{row}");
    }
}

/// The forms with a name in them.
static NAMED: [&'static str; 3] = ["check|", "run|", "run|a.bench|"];

/// Whether the form with a name of so many bytes is a command.
fn takes_name(alloc: Global, form: &str, len: usize) -> Result<bool, Memory> {
    let name = "a".repeat(alloc, len)?;
    let row = format!(in alloc; "{form}{name}")?;
    is_command(alloc, row.as_str())
}

/// Whether the words are a command.
fn is_command(alloc: Global, row: &str) -> Result<bool, Memory> {
    let words = words_of(alloc, row)?;
    Ok(read_words(alloc, &words)?.is_some())
}

/// The longest word may be the name of a file, of a bench file and of a dump; with one byte more it may not.
#[test]
fn longest_word(rt: HostRuntime) {
    for form in NAMED.iter() {
        assert!(rt;
            matches!(takes_name(rt.alloc(), form, 4_096), Ok(true)),
            "{form}"
        );
        assert!(rt;
            matches!(takes_name(rt.alloc(), form, 4_097), Ok(false)),
            "{form}"
        );
    }
}
