//! Real files and standard output, and where a dump goes.

ghost use Rattle.std.specs.Prelude.{◌≤◌, length};

use crate::fakes::{BusySystem, Redirected};
use fsb_io::{Failed, FileSink, FileSource, ReadStop, Sink, Source, StdoutSink, put_all, read_all};
use std::rt::Files;
use std::test::Fail;
use std::{env, fs, io};

/// Whether a file and standard output that are interrupted so often answer so.
fn answers_behind(interrupts: u32, answer: Result<usize, Failed>) -> bool {
    let system = BusySystem::new(interrupts);
    let mut source = FileSource::new(&system);
    source.begin("text") == Ok(())
        && source.read(&mut [0; 4]) == answer
        && StdoutSink::new(&system).write(b"text") == answer
}

#[test]
fn interrupted_calls_are_tried_again_a_thousand_times(rt: HostRuntime) {
    assert!(rt; answers_behind(1_000, Ok(1)));
    assert!(rt; answers_behind(1_001, Err(Failed)));
}

#[test]
fn file_is_written_and_read_back(rt: HostRuntime) -> Result<(), Fail> {
    let path = env::temp_dir(&rt)?.join(rt.alloc(), "fsb_io_written_and_read_back")?;
    let name = path.as_str();
    assert!(rt; name.len() <= 4_096);

    let mut sink = FileSink::new(&rt, None);
    assert!(rt;
        sink.store() == Ok(()),
        "nothing was begun, so nothing is asked"
    );
    assert!(rt; put_all(&mut sink, b"lost") == Err(Failed), "not begun");
    assert!(rt; sink.begin(name) == Ok(()));
    assert!(rt; put_all(&mut sink, b"old text") == Ok(()));
    assert!(rt; sink.begin(name) == Ok(()));
    assert!(rt; put_all(&mut sink, b"11 0 0") == Ok(()));
    assert!(rt; put_all(&mut sink, b" ld\n") == Ok(()));
    assert!(rt; sink.store() == Ok(()));
    assert!(rt; sink.faults() == 1);

    let mut source = FileSource::new(&rt);
    assert!(rt; source.begin(name) == Ok(()));
    let text = read_all(rt.alloc(), &mut source, 100)?;
    assert!(rt; text.as_slice() == b"11 0 0 ld\n".as_slice());
    assert!(rt; source.faults() == 0);

    fs::remove_file(&rt, name)?;
    assert!(rt; source.begin(name) == Err(Failed), "the file is gone");
    assert!(rt; source.faults() == 1);
    Ok(())
}

#[test]
fn read_of_a_folder_and_write_to_a_full_device_are_faults(rt: HostRuntime) -> Result<(), Fail> {
    let mut source = FileSource::new(&rt);
    assert!(rt; source.begin("/") == Ok(()), "a folder can be opened");
    let answer = read_all(rt.alloc(), &mut source, 100);
    assert!(rt; matches!(answer, Err(ReadStop::ReadFault)));
    assert!(rt; source.faults() == 1);

    let mut sink = FileSink::new(&rt, None);
    assert!(rt; sink.begin("/dev/full") == Ok(()));
    assert!(rt; put_all(&mut sink, b"lost") == Err(Failed));
    assert!(rt; sink.store() == Ok(()), "a device is not asked");
    assert!(rt; sink.faults() == 1);
    Ok(())
}

#[test]
fn standard_output_is_written_and_never_begun(rt: HostRuntime) {
    let mut sink = StdoutSink::new(&rt);
    assert!(rt; sink.begin("out") == Err(Failed));
    assert!(rt; put_all(&mut sink, b"a line\n") == Ok(()));
    assert!(rt; sink.faults() == 1);
}

/// Where a byte goes that is written to a sink.
#[derive(Clone, Copy, PartialEq, Eq)]
enum Place {
    /// The sink cannot be begun, nor written.
    Nowhere,
    Output,
    File,
}

/// Begins a sink under a name, where standard output goes to the file `output` and the file `spared` is to be kept, and writes
/// a byte: how long the file `text` is before the byte, where the byte goes, and how long the file is after it.
fn placed<R: Files>(
    files: &R,
    output: &str,
    spared: Option<&str>,
    name: &str,
    text: &str,
) -> io::Result<(u64, Option<Place>, u64)>
    requires { length name.now ≤ 4096 }
{
    let system = Redirected::new(files, output);
    let mut sink = FileSink::new(&system, spared);
    let is_begun = sink.begin(name).is_ok();
    let before = fs::metadata(files, text)?.len();
    let is_written = sink.write(b"x").is_ok();
    let after = fs::metadata(files, text)?.len();
    let place = match (is_begun, is_written, system.printed()) {
        (false, false, 0) => Some(Place::Nowhere),
        (true, true, 1) => Some(Place::Output),
        (true, true, 0) => Some(Place::File),
        _ => None,
    };
    Ok((before, place, after))
}

/// What standard output goes to, the file that is spared, the name of the sink, what the text holds before, and how long it is
/// before the byte, where the byte goes, and how long the text is after it.
type Placing<'a> = (
    &'a str,
    Option<&'a str>,
    &'a str,
    &'a str,
    (u64, Place, u64),
);

/// Whether the byte goes there.
fn is_placed<R: Files>(files: &R, text: &str, row: &Placing<'_>) -> io::Result<bool> {
    let &(output, spared, name, held, (before, place, after)) = row;
    fs::write(files, text, held)?;
    if name.len() > 4_096 {
        return Ok(false);
    }
    let came = placed(files, output, spared, name, text)?;
    Ok(came == (before, Some(place), after))
}

#[test]
fn no_file_is_lost_whatever_its_names(rt: HostRuntime) -> Result<(), Fail> {
    let folder = env::temp_dir(&rt)?;
    let text = folder.join(rt.alloc(), "fsb_io_place_text")?;
    let link = folder.join(rt.alloc(), "fsb_io_place_link")?;
    let other = folder.join(rt.alloc(), "fsb_io_place_other")?;
    let (text, link, other) = (text.as_str(), link.as_str(), other.as_str());
    fs::write(&rt, text, b"text")?;
    fs::write(&rt, other, b"other")?;
    let _ = fs::remove_file(&rt, link);
    fs::hard_link(&rt, text, link)?;
    let rows = [
        (text, None, text, "text", (4, Place::Output, 4)),
        (text, Some(other), link, "text", (4, Place::Output, 4)),
        (other, Some(text), text, "text", (4, Place::Nowhere, 4)),
        (other, Some(text), link, "text", (4, Place::Nowhere, 4)),
        ("/no/output", None, text, "text", (4, Place::Nowhere, 4)),
        (other, None, link, "text", (0, Place::File, 1)),
        ("/no/output", None, text, "", (0, Place::File, 1)),
    ];
    for (at, row) in rows.iter().enumerate() {
        assert!(rt; is_placed(&rt, text, row)?, "row {at}");
    }
    for name in [text, link, other].iter() {
        fs::remove_file(&rt, name)?;
    }
    Ok(())
}
