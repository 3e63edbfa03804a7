/// The whole dump of no samples, as p6bench writes it.
pub const NO_SAMPLES: &str = "\
$version p6bench 1 $end
$timescale 1 ns $end
$scope module fsb $end
$var wire 1 ! BCLK $end
$var wire 1 \" BREQ0_n $end
$var wire 1 # BREQ1_n $end
$var wire 1 $ BREQ2_n $end
$var wire 1 % BREQ3_n $end
$var wire 1 & BPRI_n $end
$var wire 1 ' LOCK_n $end
$var wire 1 ( BNR_n $end
$var wire 1 ) ADS_n $end
$var wire 5 * REQ_n [4:0] $end
$var wire 33 + A_n [35:3] $end
$var wire 1 , AERR_n $end
$var wire 1 - HIT_n $end
$var wire 1 . HITM_n $end
$var wire 1 / DEFER_n $end
$var wire 3 0 RS_n [2:0] $end
$var wire 1 1 TRDY_n $end
$var wire 1 2 DBSY_n $end
$var wire 1 3 DRDY_n $end
$var wire 64 4 D_n [63:0] $end
$upscope $end
$enddefinitions $end
#0
$dumpvars
0!
1\"
1#
1$
1%
1&
1'
1(
1)
b11111 *
b111111111111111111111111111111111 +
1,
1-
1.
1/
b111 0
11
12
13
b1111111111111111111111111111111111111111111111111111111111111111 4
$end
";

/// The dump of a load in profile 2, up to clock 12: its request, in clocks 2 and 3, has the parity of the low address and
/// that of the request asserted.
pub const PARITY_OF_A_LOAD: &str = "\
$version p6bench 1 $end
$timescale 1 ns $end
$scope module fsb $end
$var wire 1 ! BCLK $end
$var wire 1 \" BREQ0_n $end
$var wire 1 # BREQ1_n $end
$var wire 1 $ BREQ2_n $end
$var wire 1 % BREQ3_n $end
$var wire 1 & BPRI_n $end
$var wire 1 ' LOCK_n $end
$var wire 1 ( BNR_n $end
$var wire 1 ) ADS_n $end
$var wire 5 * REQ_n [4:0] $end
$var wire 33 + A_n [35:3] $end
$var wire 1 , AERR_n $end
$var wire 1 - HIT_n $end
$var wire 1 . HITM_n $end
$var wire 1 / DEFER_n $end
$var wire 3 0 RS_n [2:0] $end
$var wire 1 1 TRDY_n $end
$var wire 1 2 DBSY_n $end
$var wire 1 3 DRDY_n $end
$var wire 64 4 D_n [63:0] $end
$var wire 2 5 AP_n [1:0] $end
$var wire 1 6 RP_n $end
$upscope $end
$enddefinitions $end
#0
$dumpvars
0!
0\"
1#
1$
1%
1&
1'
1(
1)
b11111 *
b111111111111111111111111111111111 +
1,
1-
1.
1/
b111 0
11
12
13
b1111111111111111111111111111111111111111111111111111111111111111 4
b11 5
16
$end
#5
1!
#10
0!
#15
1!
#20
0!
0)
b11001 *
b111111111111111111111111111110111 +
b10 5
06
#25
1!
#30
0!
1\"
1)
b11101 *
b111111111111111111111111111111101 +
#35
1!
#40
0!
b11111 *
b111111111111111111111111111111111 +
b11 5
16
#45
1!
#50
0!
#55
1!
#60
0!
#65
1!
#70
0!
#75
1!
#80
0!
b000 0
02
03
b1111111111111111111111111111111111111111111111111111111111111000 4
#85
1!
#90
0!
b111 0
b1111111111111111111111111111111111111111111111111111111111111111 4
#95
1!
#100
0!
#105
1!
#110
0!
12
#115
1!
#120
0!
13
#125
1!
";
