//! The lines of a wave, each by what it shows.

ghost use Rattle.std.specs.Prelude.{◌≡◌, ◌≤◌, ◌+◌, ◌++◌, length};
ghost use Rattle.arrayvec.specs.ArrayVec.{array_vec_len};
ghost use Rattle.fsb_wave.specs.WaveText.{drawn_name, mark_of, known_text, request_text, data_text, clock_count_text};

use arrayvec::ArrayVec;
use fsb_io::{Line, put_decimal, put_hex, put_text};
use fsb_signal::{Lines, Sample};

/// How a line is drawn at the clock of this sample.
#[tactic(auto, unfolding(crate::specs::WaveText::mark_of))]
pub fn mark_of(line: Lines, sample: &Sample) -> u8
    ensures { result ≡ mark_of line sample.now }
{
    if sample.has(line) {
        b'#'
    } else if sample.has_unknown(line) {
        b'?'
    } else {
        b'.'
    }
}

/// The beginning of a drawing: a name, filled with spaces to six places.
pub fn drawn_name(name: &str) -> Line
    requires { length name.now ≤ 6 }
    ensures items { result.items ≡ drawn_name name.now }
    ensures len { array_vec_len result ≡ 6 }
{
    let mut line = ArrayVec::new();
    put_text(&mut line, name);
    while line.len() < 6 {
        line.push(b' ');
    }
    line
}

// Appends a number, or `?` where it is not known.
fn put_value(line: &mut Line, known: bool, value: u64)
    requires { array_vec_len line.old + 20 ≤ 256 }
    ensures items { line.new.items ≡ line.old.items ++ known_text known value }
    ensures len { array_vec_len line.new ≤ array_vec_len line.old + 16 }
{
    if known {
        put_hex(line, value);
    } else {
        put_text(line, "?");
    }
}

/// The line of a clock of a request, with its line feed.
#[tactic(auto, unfolding(crate::specs::WaveText::request_text))]
pub fn request_line(clock: u64, sample: &Sample) -> Line
    ensures { result.items ≡ request_text clock sample.now }
{
    let mut line = ArrayVec::new();
    put_text(&mut line, "A ");
    put_decimal(&mut line, clock);
    put_text(&mut line, " ");
    put_value(&mut line, sample.addr.is_known(), 8 * sample.addr.bits);
    put_text(&mut line, " ");
    put_value(&mut line, sample.req.is_known(), sample.req.bits);
    put_text(&mut line, "\n");
    line
}

/// The line of a clock of data, with its line feed.
#[tactic(auto, unfolding(crate::specs::WaveText::data_text))]
pub fn data_line(clock: u64, sample: &Sample) -> Line
    ensures { result.items ≡ data_text clock sample.now }
{
    let mut line = ArrayVec::new();
    put_text(&mut line, "D ");
    put_decimal(&mut line, clock);
    put_text(&mut line, " ");
    put_value(&mut line, sample.dbus.is_known(), sample.dbus.bits);
    put_text(&mut line, "\n");
    line
}

/// The last line, with its line feed.
#[tactic(auto, unfolding(crate::specs::WaveText::clock_count_text))]
pub fn clocks_line(count: u64) -> Line
    ensures { result.items ≡ clock_count_text count }
{
    let mut line = ArrayVec::new();
    put_text(&mut line, "clocks=");
    put_decimal(&mut line, count);
    put_text(&mut line, "\n");
    line
}
