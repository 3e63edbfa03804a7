/// A load whose lines are driven on falling edges, `falling.v`.
pub const FALLING: &str = "\
$date
\tFri Nov 27 06:51:12 2026
$end
$version
\tIcarus Verilog
$end
$timescale
\t1ns
$end
$scope module falling $end
$var reg 1 ! BCLK $end
$upscope $end
$scope module falling $end
$var reg 1 \" BREQ0_n $end
$upscope $end
$scope module falling $end
$var reg 1 # ADS_n $end
$upscope $end
$scope module falling $end
$var reg 5 $ REQ_n [4:0] $end
$upscope $end
$scope module falling $end
$var reg 33 % A_n [35:3] $end
$upscope $end
$scope module falling $end
$var reg 1 & HIT_n $end
$upscope $end
$scope module falling $end
$var reg 1 ' HITM_n $end
$upscope $end
$scope module falling $end
$var reg 3 ( RS_n [2:0] $end
$upscope $end
$scope module falling $end
$var reg 1 ) TRDY_n $end
$upscope $end
$scope module falling $end
$var reg 1 * DBSY_n $end
$upscope $end
$scope module falling $end
$var reg 1 + DRDY_n $end
$upscope $end
$scope module falling $end
$var reg 64 , D_n [63:0] $end
$upscope $end
$enddefinitions $end
#0
$dumpvars
b1111111111111111111111111111111111111111111111111111111111111111 ,
1+
1*
1)
b111 (
1'
1&
b111111111111111111111111111111111 %
b11111 $
1#
0\"
0!
$end
#5
1!
#10
0!
#15
1!
#20
b111111111111111111111111111110111 %
b11001 $
0#
0!
#25
1!
#30
b111111111111111111111111111111101 %
b11101 $
1#
1\"
0!
#35
1!
#40
b111111111111111111111111111111111 %
b11111 $
0!
#45
1!
#50
0!
#55
1!
#60
0!
#65
1!
#70
0!
#75
1!
#80
b1111111111111111111111111111111111111111111111111111111111111000 ,
0+
0*
b0 (
0!
#85
1!
#90
b1111111111111111111111111111111111111111111111111111111111111111 ,
b111 (
0!
#95
1!
#100
0!
#105
1!
#110
1*
0!
#115
1!
#120
1+
0!
#125
1!
#130
0!
#135
1!
#140
0!
#145
1!
#149
";

/// The same load among scopes and other variables, with undriven words and a while without a dump, `scopes.v`.
pub const SCOPES: &str = "\
$date
\tFri Nov 27 06:51:12 2026
$end
$version
\tIcarus Verilog
$end
$timescale
\t1ps
$end
$scope module scopes $end
$var event 1 ! granted $end
$var wire 1 \" HITM_n $end
$var wire 1 # HIT_n $end
$var wire 5 $ REQ_n [4:0] $end
$var wire 1 % BREQ0_n $end
$var wire 33 & A_n [35:3] $end
$var wire 1 ' ADS_n $end
$var reg 1 ( BCLK $end
$var reg 1 ) DBSY_n $end
$var reg 1 * DRDY_n $end
$var reg 64 + D_n [63:0] $end
$var reg 3 , RS_n [2:0] $end
$var reg 1 - TRDY_n $end
$var reg 8 . req_n [7:0] $end
$var integer 32 / clock [31:0] $end
$var real 1 0 volts $end
$scope module agent0 $end
$var wire 1 ( BCLK $end
$var reg 1 ' ADS_n $end
$var reg 33 1 A_n [35:3] $end
$var reg 1 % BREQ0_n $end
$var reg 5 2 REQ_n [4:0] $end
$var integer 32 3 next [31:0] $end
$upscope $end
$upscope $end
$enddefinitions $end
#0
$dumpvars
b1 3
bz 2
bz 1
r1.5 0
b0 /
b1010101 .
1-
b111 ,
bx +
1*
1)
0(
1'
bz &
0%
bz $
1#
z\"
1!
$end
#500
1(
#1000
b10 3
b10101010 .
b1 /
r0.75 0
0(
#1500
1(
#2000
b1010101 .
b10 /
b111111111111111111111111111110111 &
b111111111111111111111111111110111 1
b11001 $
b11001 2
0'
b11 3
r0.375 0
0(
#2500
1(
#3000
b111111111111111111111111111111101 &
b111111111111111111111111111111101 1
b11101 $
b11101 2
1'
1%
b100 3
b10101010 .
b11 /
1!
r0.1875 0
0(
#3500
1(
#4000
b1010101 .
b100 /
bz &
bz 1
bz $
bz 2
b101 3
r0.09375 0
0(
#4500
1(
#5000
b110 3
b10101010 .
b101 /
r0.046875 0
0(
#5500
1(
#6000
b1010101 .
b110 /
b111 3
r0.0234375 0
0(
#6500
1(
#7000
b1000 3
b10101010 .
b111 /
r0.01171875 0
0(
#7500
1(
#8000
b1111111111111111111111111111111111111111111111111111111111111000 +
0*
0)
b0 ,
b1010101 .
b1000 /
b1001 3
r0.005859375 0
0(
#8500
1(
#9000
b1010 3
b1111111111111111111111111111111111111111111111111111111111111111 +
b111 ,
b10101010 .
b1001 /
r0.0029296875 0
0(
#9500
1(
#10000
b1010101 .
b1010 /
b1011 3
r0.00146484375 0
0(
#10500
1(
#11000
b1100 3
1)
b10101010 .
b1011 /
r0.000732421875 0
0(
#11500
1(
#12000
bx +
1*
b1010101 .
b1100 /
b1101 3
r0.0003662109375 0
0(
#12500
1(
#12800
$dumpoff
bx 3
bx 2
bx 1
rNaN 0
bx /
bx .
x-
bx ,
bx +
x*
x)
x(
x'
bx &
x%
bx $
x#
x\"
$end
#14800
$dumpon
b1111 3
bz 2
bz 1
r9.1552734375e-05 0
b1110 /
b1010101 .
1-
b111 ,
bx +
1*
1)
1(
1'
bz &
1%
bz $
1#
z\"
1!
$end
#15000
b10000 3
b10101010 .
b1111 /
r4.57763671875e-05 0
0(
#15500
1(
#16000
b1010101 .
b10000 /
b10001 3
r2.288818359375e-05 0
0(
#16500
1(
#16700
";

/// A request whose lines change at the time of the rising edge, before it, `same_time.v`.
pub const SAME_TIME: &str = "\
$date
\tFri Nov 27 06:51:12 2026
$end
$version
\tIcarus Verilog
$end
$timescale
\t1ns
$end
$scope module same_time $end
$var reg 1 ! BCLK $end
$upscope $end
$scope module same_time $end
$var reg 1 \" BREQ0_n $end
$upscope $end
$scope module same_time $end
$var reg 1 # ADS_n $end
$upscope $end
$scope module same_time $end
$var reg 5 $ REQ_n [4:0] $end
$upscope $end
$scope module same_time $end
$var reg 33 % A_n [35:3] $end
$upscope $end
$scope module same_time $end
$var reg 1 & HIT_n $end
$upscope $end
$scope module same_time $end
$var reg 1 ' HITM_n $end
$upscope $end
$scope module same_time $end
$var reg 3 ( RS_n [2:0] $end
$upscope $end
$scope module same_time $end
$var reg 1 ) TRDY_n $end
$upscope $end
$scope module same_time $end
$var reg 1 * DBSY_n $end
$upscope $end
$scope module same_time $end
$var reg 1 + DRDY_n $end
$upscope $end
$scope module same_time $end
$var reg 64 , D_n [63:0] $end
$upscope $end
$enddefinitions $end
#0
$dumpvars
b1111111111111111111111111111111111111111111111111111111111111111 ,
1+
1*
1)
b111 (
1'
1&
b111111111111111111111111111111111 %
b11111 $
1#
1\"
0!
$end
#5
1!
0\"
#10
0!
#15
1!
#20
0!
#25
1!
b111111111111111111111111111110111 %
b11001 $
0#
#30
0!
#35
1!
b111111111111111111111111111111101 %
b11101 $
1#
1\"
#40
0!
#45
1!
b111111111111111111111111111111111 %
b11111 $
#50
0!
";
