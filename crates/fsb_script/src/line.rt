ghost use Rattle.std.specs.Prelude.{◌≡◌, ◌<◌, ◌≤◌, ◌+◌, ◌++◌, codes, length};
ghost use Rattle.std.specs.Fmt.{decimal};
ghost use Rattle.arrayvec.specs.ArrayVec.{array_vec_len};
ghost use Rattle.fsb_script.specs.Text.{feed, space, head_text, window_text, digit_text, setting_text, operand_text, access_text, idle_text, agent_text, turn_text, hazard_text};

use crate::plan::Window;
use arrayvec::ArrayVec;
use fsb_access::{Access, Operand, Setting};
use fsb_hazard::HazardLine;
use fsb_io::{Line, put_bytes, put_decimal, put_hex, put_text};

/// The five lines of the head.
#[tactic(auto, unfolding(crate::specs::Text::head_text))]
pub(crate) fn head_lines(agents: u64, clocks: u32, cache: u32, ahead: u8) -> Line
    ensures { result.items ≡ head_text agents clocks cache ahead }
{
    let mut line = ArrayVec::new();
    put_text(&mut line, "p6bench 1");
    put_bytes(&mut line, b"\n");
    put_text(&mut line, "agents ");
    put_decimal(&mut line, agents);
    put_bytes(&mut line, b"\n");
    put_text(&mut line, "clocks ");
    put_decimal(&mut line, clocks as u64);
    put_bytes(&mut line, b"\n");
    put_text(&mut line, "cache ");
    put_decimal(&mut line, cache as u64);
    put_bytes(&mut line, b"\n");
    put_text(&mut line, "ahead ");
    put_decimal(&mut line, ahead as u64);
    put_bytes(&mut line, b"\n");
    line
}

/// The line of the bridge.
#[tactic(auto, unfolding(crate::specs::Text::window_text))]
pub(crate) fn window_line(window: &Window) -> Line
    ensures { result.items ≡ window_text window.now }
{
    let mut line = ArrayVec::new();
    put_text(&mut line, "bridge ");
    put_hex(&mut line, window.base);
    put_bytes(&mut line, b" ");
    put_hex(&mut line, window.size);
    put_bytes(&mut line, b"\n");
    line
}

fn digit_text(digit: u8) -> u8
    requires { digit < 16 }
    ensures { result ≡ digit_text digit }
{
    if digit < 10 {
        b'0' + digit
    } else {
        b'a' - 10 + digit
    }
}

/// The line of a byte of memory.
#[tactic(auto, unfolding(crate::specs::Text::setting_text))]
pub(crate) fn setting_line(setting: &Setting) -> Line
    ensures { result.items ≡ setting_text setting.now }
{
    let byte = setting.byte;
    let mut line = ArrayVec::new();
    put_text(&mut line, "mem ");
    put_hex(&mut line, setting.addr);
    put_bytes(&mut line, b" ");
    line.push(digit_text(byte / 16));
    line.push(digit_text(byte % 16));
    put_bytes(&mut line, b"\n");
    line
}

fn put_operand(line: &mut Line, value: &Operand)
    requires { array_vec_len line.old ≤ 100 }
    ensures items { line.new.items ≡ line.old.items ++ operand_text value.now }
    ensures len { array_vec_len line.new ≤ array_vec_len line.old + 22 }
{
    match value {
        Operand::Literal(number) => put_hex(line, *number),
        Operand::LastPlus(number) => {
            put_text(line, "r+");
            put_hex(line, *number);
        }
    }
}

/// The line of an access.
#[tactic(auto, unfolding(crate::specs::Text::access_text))]
pub(crate) fn access_line(access: &Access) -> Line
    ensures { result.items ≡ access_text access.now }
{
    let mut line = ArrayVec::new();
    match access {
        Access::Load { size, addr } => {
            put_text(&mut line, "ld ");
            put_decimal(&mut line, *size as u64);
            put_bytes(&mut line, b" ");
            put_hex(&mut line, *addr);
            put_bytes(&mut line, b"\n");
            line
        }
        Access::Store { size, addr, value } => {
            put_text(&mut line, "st ");
            put_decimal(&mut line, *size as u64);
            put_bytes(&mut line, b" ");
            put_hex(&mut line, *addr);
            put_bytes(&mut line, b" ");
            put_operand(&mut line, value);
            put_bytes(&mut line, b"\n");
            line
        }
    }
}

/// The line of an idle item.
#[tactic(auto, unfolding(crate::specs::Text::idle_text))]
pub(crate) fn idle_line(clocks: u32) -> Line
    ensures { result.items ≡ idle_text clocks }
{
    let mut line = ArrayVec::new();
    put_text(&mut line, "idle ");
    put_decimal(&mut line, clocks as u64);
    put_bytes(&mut line, b"\n");
    line
}

/// The line that begins a script.
#[tactic(auto, unfolding(crate::specs::Text::agent_text))]
pub(crate) fn agent_line(number: u64) -> Line
    ensures { result.items ≡ agent_text number }
{
    let mut line = ArrayVec::new();
    put_text(&mut line, "agent ");
    put_decimal(&mut line, number);
    put_bytes(&mut line, b"\n");
    line
}

fn turn(k: u32, word: &str) -> Line
    requires { length word.now ≤ 10 }
    ensures items { result.items ≡ turn_text k word.now }
    ensures len { array_vec_len result ≤ 40 }
{
    let mut line = ArrayVec::new();
    put_text(&mut line, "tx ");
    put_decimal(&mut line, k as u64);
    put_text(&mut line, word);
    line
}

fn counted(k: u32, word: &str, count: u64) -> Line
    requires { length word.now ≤ 10 }
    ensures { result.items ≡ turn_text k word.now ++ decimal count ++ feed }
{
    let mut line = turn(k, word);
    put_decimal(&mut line, count);
    put_bytes(&mut line, b"\n");
    line
}

fn plain(k: u32, word: &str) -> Line
    requires { length word.now ≤ 10 }
    ensures { result.items ≡ turn_text k word.now ++ feed }
{
    let mut line = turn(k, word);
    put_bytes(&mut line, b"\n");
    line
}

fn block_line(from: u32, to: u32) -> Line
    ensures { result.items ≡ codes "bnr " ++ decimal from ++ space ++ decimal to ++ feed }
{
    let mut line = ArrayVec::new();
    put_text(&mut line, "bnr ");
    put_decimal(&mut line, from as u64);
    put_bytes(&mut line, b" ");
    put_decimal(&mut line, to as u64);
    put_bytes(&mut line, b"\n");
    line
}

/// The line of a hazard.
#[tactic(auto, unfolding(crate::specs::Text::hazard_text))]
pub(crate) fn hazard_line(hazard: &HazardLine) -> Line
    ensures { result.items ≡ hazard_text hazard.now }
{
    match hazard {
        HazardLine::Stall(k, n) => counted(*k, " stall ", *n as u64),
        HazardLine::Trdy(k, n) => counted(*k, " trdy ", *n as u64),
        HazardLine::Resp(k, n) => counted(*k, " resp ", *n as u64),
        HazardLine::Gap(k, n) => counted(*k, " data ", *n as u64),
        HazardLine::Retry(k) => plain(*k, " retry"),
        HazardLine::Defer(k, later) => counted(*k, " defer ", *later as u64),
        HazardLine::Aerr(k) => plain(*k, " aerr"),
        HazardLine::Bnr(from, to) => block_line(*from, *to),
    }
}
