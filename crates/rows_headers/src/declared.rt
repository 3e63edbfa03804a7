//! What headers declare.

use crate::headers::{ICARUS, OTHERS, PREFACE, STRICT, WIDE, read, told};
use vcd_header::HeaderRules;

/// Rules, a header, what is told of it, and how many bytes stand after its end.
const HEADERS: [(HeaderRules, &'static str, &'static str, usize); 4] = [
    (
        STRICT,
        ICARUS,
        "tb.clk ! reg\ntb.dut.addr [35:3] \" wire\ntb.t # real\n$date Mon Nov 30 07:00:00 2026\n$version Icarus Verilog\n$timescale 1ps\n$scope module tb\n$scope module dut\n$upscope\n$upscope\n",
        16,
    ),
    (
        WIDE,
        ICARUS,
        "tb.clk ! reg\ntb.dut.addr [35:3] \" wire\ntb.t # real\n$date Mon Nov 30 07:00:00 2026\n$version Icarus Verilog\n$timescale 1ps\n$scope module tb\n$scope module dut\n$upscope\n$upscope\n",
        16,
    ),
    (
        STRICT,
        OTHERS,
        "a.req_n[4:0] aa wire\n\\ads# ab wire\nb.c.ap_n [1] [0] ac logic\n$timescale 1 ns\n$upscope\n$scope module a\n$upscope\n$upscope\n$scope begin b\n$scope fork c\n",
        0,
    ),
    (WIDE, PREFACE, "clk ! wire\n", 0),
];

#[test]
fn declarations_and_sections_of_headers(rt: HostRuntime) {
    let alloc = rt.alloc();
    for (rules, text, lines, after) in HEADERS.iter() {
        for size in 1..200 {
            let (reader, left) = read(alloc, *rules, text, size).ok().expect(&rt, "read");
            let said = told(alloc, &reader).ok().expect(&rt, "memory");
            assert!(rt; said.as_slice() == lines.as_bytes());
            assert!(rt; left == *after);
        }
    }
}

#[test]
fn places_and_widths_of_declarations(rt: HostRuntime) {
    let alloc = rt.alloc();
    let (reader, _left) = read(alloc, WIDE, OTHERS, 7).ok().expect(&rt, "read");
    let found = reader.declarations();
    assert!(rt; found.len() == 3);
    for (i, place, width) in [(0, 56, 5), (1, 115, 1), (2, 180, 2)] {
        let declared = found.get(i).expect(&rt, "declared");
        assert!(rt; declared.width == width);
        assert!(rt; declared.place == place);
    }
}
