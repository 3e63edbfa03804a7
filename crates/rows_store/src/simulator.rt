/// The declarations of a dump as a simulator writes it.
pub const SIMULATOR_HEAD: &str = "\
$date today $end
$version some simulator $end
$timescale 1ps $end
$scope module tb $end
$scope module bus $end
$var reg 1 a BCLK $end
$var wire 1 b BREQ0_n $end
$var wire 1 c ADS_n $end
$var wire 5 d REQ_n[4:0] $end
$var wire 33 e A_n [35:3] $end
$var wire 1 f HIT_n $end
$var wire 1 g HITM_n $end
$var wire 3 h RS_n [2:0] $end
$var wire 1 i TRDY_n $end
$var wire 1 j DBSY_n $end
$var wire 1 k DRDY_n $end
$var wire 64 l D_n [63:0] $end
$var real 64 m volts $end
$upscope $end
$upscope $end
$enddefinitions $end
";

/// Its first values, in which BCLK is 0 and the data word is unknown.
pub const SIMULATOR_START: &str = "\
#0
$dumpvars
0a
1b
1c
bz d
bz e
1f
zg
b111 h
1i
1j
1k
bx l
r1.2 m
$end
";

/// Its two rises; BREQ0# changes at the time of the first, so it is asserted in the second sample.
pub const SIMULATOR_RISES: &str = "#500\n1a\n0b\n#1000\n0a\n#1500\n1a\n";

/// The same, with an ADS# that is unknown from the falling edge on.
pub const UNKNOWN_AFTER_FALL: &str = "#500\n1a\n0b\n#1000\nxc\n0a\n#1500\n1a\n";

/// The same, with a BREQ0# that is unknown from the first rise on.
pub const UNKNOWN_AFTER_RISE: &str = "#500\n1a\nxb\n#1000\n0a\n#1500\n1a\n";
