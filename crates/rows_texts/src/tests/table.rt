use super::{Bad, Good, Mark, Rest, Start};
use fsb_signal::Lines;
use vcd_read::VcdCause;

/// Texts with a first fault: what stands before, the text, how far into the text the fault's place is, and its cause.
pub(crate) static BAD: [Bad; 143] = [
    // before the end of the declarations: nothing, white space alone, and words outside a section
    (Start::Whole, "", 0, VcdCause::Cut),
    (Start::Whole, " \t\r\n\x0b\x0c", 6, VcdCause::Cut),
    (Start::Whole, "hello", 0, VcdCause::Header),
    (Start::Whole, "\n \nhello", 3, VcdCause::Header),
    (Start::Whole, "\x0e", 0, VcdCause::Header),
    (Start::Whole, "\x08$end", 0, VcdCause::Header),
    (Start::Whole, "é", 0, VcdCause::Header),
    (Start::Whole, "#0", 0, VcdCause::Header),
    (Start::Whole, "0!", 0, VcdCause::Header),
    (Start::Whole, "$date today $end hello", 17, VcdCause::Header),
    (Start::Whole, "$end $end x", 10, VcdCause::Header),
    (Start::Lines, "2!", 0, VcdCause::Header),
    // sections that do not end
    (Start::Whole, "$comment", 8, VcdCause::Cut),
    (Start::Whole, "$comment a b c\n", 15, VcdCause::Cut),
    (Start::Whole, "$end", 4, VcdCause::Cut),
    (Start::Whole, "$", 1, VcdCause::Cut),
    (Start::Whole, "$var", 4, VcdCause::Cut),
    (Start::Whole, "$var wire 1", 11, VcdCause::Cut),
    (Start::Whole, "$var wire 2 ! BCLK", 18, VcdCause::Cut),
    (Start::Whole, "$var wire 1 ! BCLK $END", 23, VcdCause::Cut),
    (Start::Whole, "$enddefinitions", 15, VcdCause::Cut),
    (Start::Lines, "", 0, VcdCause::Cut),
    (Start::Lines, "$enddefinitions", 15, VcdCause::Cut),
    (Start::Lines, "$enddefinitions foo\n", 20, VcdCause::Cut),
    (Start::Lines, "$enddefinitions $endx", 21, VcdCause::Cut),
    (
        Start::Lines,
        "$endx $enddefinitions $end",
        26,
        VcdCause::Cut,
    ),
    (
        Start::Lines,
        "$dumpvars $enddefinitions $end",
        30,
        VcdCause::Cut,
    ),
    (
        Start::Lines,
        "$var wire 1 a LOCK_n $enddefinitions $end",
        41,
        VcdCause::Cut,
    ),
    // declarations with too few words
    (Start::Whole, "$var $end", 0, VcdCause::Header),
    (Start::Whole, "$var wire $end", 0, VcdCause::Header),
    (Start::Whole, "$var wire 1 $end", 0, VcdCause::Header),
    (Start::Whole, "$var wire 1 ! $end", 0, VcdCause::Header),
    (
        Start::Whole,
        "$date $end $var wire 1 ! $end",
        11,
        VcdCause::Header,
    ),
    // widths
    (Start::Lines, "$var wire x a a $end", 0, VcdCause::Header),
    (Start::Lines, "$var wire 1x a a $end", 0, VcdCause::Header),
    (Start::Lines, "$var wire -1 a a $end", 0, VcdCause::Header),
    (Start::Lines, "$var wire +1 a a $end", 0, VcdCause::Header),
    (Start::Lines, "$var wire 1.0 a a $end", 0, VcdCause::Header),
    (Start::Lines, "$var wire 0x1 a a $end", 0, VcdCause::Header),
    (
        Start::Lines,
        "$var wire 1000001 a a $end",
        0,
        VcdCause::Header,
    ),
    (
        Start::Lines,
        "$var wire 18446744073709551617 a a $end",
        0,
        VcdCause::Header,
    ),
    (
        Start::Lines,
        "$var real 1000001 a a $end",
        0,
        VcdCause::Header,
    ),
    // codes that are none
    (Start::Lines, "$var wire 1 \x7f a $end", 0, VcdCause::Header),
    (
        Start::Lines,
        "$var wire 1 a\x01b a $end",
        0,
        VcdCause::Header,
    ),
    (Start::Lines, "$var wire 1 é a $end", 0, VcdCause::Header),
    (
        Start::Whole,
        "$var wire 2 \x7f BCLK $end",
        0,
        VcdCause::Header,
    ),
    // lines of another width
    (Start::Whole, "$var wire 2 ! BCLK $end", 0, VcdCause::Width),
    (Start::Whole, "$var wire 0 ! BCLK $end", 0, VcdCause::Width),
    (
        Start::Whole,
        "$var wire 2 ! BCLK[1:0] $end",
        0,
        VcdCause::Width,
    ),
    (Start::Whole, "$var wire 2 ! BCLK[ $end", 0, VcdCause::Width),
    (Start::Whole, "$var Real 2 ! BCLK $end", 0, VcdCause::Width),
    (
        Start::Whole,
        "$var wire 4 * REQ_n [3:0] $end",
        0,
        VcdCause::Width,
    ),
    (
        Start::Lines,
        "$var wire 5 a LOCK_n $end hello",
        0,
        VcdCause::Width,
    ),
    (
        Start::Whole,
        "$var wire 2 ! BCLK $end $var wire 1 ! BCLK $end",
        0,
        VcdCause::Width,
    ),
    // needed lines that are not declared: the least number
    (
        Start::Whole,
        "$enddefinitions $end",
        0,
        VcdCause::Missing(0),
    ),
    (
        Start::Whole,
        "  $enddefinitions x $end",
        2,
        VcdCause::Missing(0),
    ),
    (
        Start::Whole,
        "$var wire 1 ! BCLK $end $enddefinitions $end",
        24,
        VcdCause::Missing(1),
    ),
    (
        Start::Whole,
        "$var wire 1 ! bclk $end $enddefinitions $end",
        24,
        VcdCause::Missing(0),
    ),
    (
        Start::Whole,
        "$var wire 1 ! [BCLK] $end $enddefinitions $end",
        26,
        VcdCause::Missing(0),
    ),
    (
        Start::Whole,
        "$var real 64 r BCLK $end $enddefinitions $end",
        25,
        VcdCause::Missing(0),
    ),
    (
        Start::Whole,
        "$var realtime 1 r BCLK $end $enddefinitions $end",
        28,
        VcdCause::Missing(0),
    ),
    (
        Start::Whole,
        "$var string 1 r BCLK $end $enddefinitions $end",
        26,
        VcdCause::Missing(0),
    ),
    (
        Start::Whole,
        "$upscope $var wire 1 ! BCLK $end $enddefinitions $end",
        33,
        VcdCause::Missing(0),
    ),
    (
        Start::Whole,
        "$comment $var wire 1 ! BCLK $end $enddefinitions $end",
        33,
        VcdCause::Missing(0),
    ),
    // values: words that are none
    (Start::Values, "hello", 0, VcdCause::Token),
    (Start::Values, "2!", 0, VcdCause::Token),
    (Start::Values, "-!", 0, VcdCause::Token),
    (Start::Values, "h!", 0, VcdCause::Token),
    (Start::Values, "!", 0, VcdCause::Token),
    (Start::Values, "\x0e", 0, VcdCause::Token),
    (Start::Values, "0! 2! #1", 3, VcdCause::Token),
    (Start::Values, "$dumpvars 2!", 10, VcdCause::Token),
    // empty codes, and codes that were not declared
    (Start::Values, "0", 0, VcdCause::Token),
    (Start::Values, "1", 0, VcdCause::Token),
    (Start::Values, "x", 0, VcdCause::Token),
    (Start::Values, "Z", 0, VcdCause::Token),
    (Start::Values, "0 !", 0, VcdCause::Token),
    (Start::Values, "0~", 0, VcdCause::Code),
    (Start::Values, "X~", 0, VcdCause::Code),
    (Start::Values, "z!!", 0, VcdCause::Code),
    (Start::Values, "0!\x7f", 0, VcdCause::Code),
    (Start::Values, "11! 0~", 0, VcdCause::Code),
    (Start::Values, "0! 0~ 2!", 3, VcdCause::Code),
    (Start::Values, "b1 ~", 3, VcdCause::Code),
    (Start::Values, "b01 ~", 4, VcdCause::Code),
    (Start::Values, "b1 $end", 3, VcdCause::Code),
    (Start::Values, "b1 #5", 3, VcdCause::Code),
    (Start::Values, "b1 b1", 3, VcdCause::Code),
    (Start::Values, "r1 ~", 3, VcdCause::Code),
    (Start::Values, "R1\n\n~", 4, VcdCause::Code),
    (Start::Values, "shello ~", 7, VcdCause::Code),
    (Start::Values, "S $end", 2, VcdCause::Code),
    // vectors
    (Start::Values, "b", 0, VcdCause::Token),
    (Start::Values, "b !", 0, VcdCause::Token),
    (Start::Values, "B !", 0, VcdCause::Token),
    (Start::Values, "b2 !", 0, VcdCause::Token),
    (Start::Values, "b1z2 0", 0, VcdCause::Token),
    (Start::Values, "b1_0 *", 0, VcdCause::Token),
    (Start::Values, "b0! !", 0, VcdCause::Token),
    (Start::Values, "b-1 !", 0, VcdCause::Token),
    (Start::Values, "b012 ~", 0, VcdCause::Token),
    (Start::Values, "b1", 2, VcdCause::Cut),
    (Start::Values, "b1\n", 3, VcdCause::Cut),
    (Start::Values, "0! b1 ", 6, VcdCause::Cut),
    (Start::Values, "r1", 2, VcdCause::Cut),
    (Start::Values, "s", 1, VcdCause::Cut),
    // values that are too wide
    (Start::Values, "b01 !", 0, VcdCause::Width),
    (Start::Values, "b11 )", 0, VcdCause::Width),
    (Start::Values, "bxx \"", 0, VcdCause::Width),
    (Start::Values, "b000000 *", 0, VcdCause::Width),
    (
        Start::Values,
        "b1111111111111111111111111111111111 +",
        0,
        VcdCause::Width,
    ),
    (Start::Values, "b0000 0", 0, VcdCause::Width),
    (
        Start::Values,
        "0! b00000000000000000000000000000000000000000000000000000000000000000 4",
        3,
        VcdCause::Width,
    ),
    (Start::Values, "b01 ! 0~", 0, VcdCause::Width),
    (
        Start::Lines,
        "$var wire 1 * LOCK_n $end $enddefinitions $end b11 *",
        47,
        VcdCause::Width,
    ),
    // times
    (Start::Values, "#", 0, VcdCause::Token),
    (Start::Values, "# 5", 0, VcdCause::Token),
    (Start::Values, "#x", 0, VcdCause::Token),
    (Start::Values, "#1a", 0, VcdCause::Token),
    (Start::Values, "#-1", 0, VcdCause::Token),
    (Start::Values, "#+1", 0, VcdCause::Token),
    (Start::Values, "#1.5", 0, VcdCause::Token),
    (Start::Values, "##1", 0, VcdCause::Token),
    (Start::Values, "#18446744073709551616", 0, VcdCause::Token),
    (Start::Values, "#99999999999999999999", 0, VcdCause::Token),
    (Start::Values, "#000000000000000000005", 0, VcdCause::Token),
    (Start::Values, "#5 #4", 3, VcdCause::TimeBack),
    (Start::Values, "#5 #5 #4", 6, VcdCause::TimeBack),
    (Start::Values, "#5 #6 #5", 6, VcdCause::TimeBack),
    (Start::Values, "#5 0! #04", 6, VcdCause::TimeBack),
    (
        Start::Values,
        "#18446744073709551615 #0",
        22,
        VcdCause::TimeBack,
    ),
    (Start::Values, "#5 #4 2!", 3, VcdCause::TimeBack),
    // sections among the values
    (Start::Values, "$comment a", 10, VcdCause::Cut),
    (Start::Values, "$dumpports 0!", 13, VcdCause::Cut),
    (Start::Values, "$DUMPVARS 0!", 12, VcdCause::Cut),
    (Start::Values, "$dumpvars2 0!", 13, VcdCause::Cut),
    (Start::Values, "$", 1, VcdCause::Cut),
    (Start::Values, "$var", 4, VcdCause::Cut),
    (Start::Values, "$comment $end 2!", 14, VcdCause::Token),
    (Start::Values, "0~ $comment", 0, VcdCause::Code),
    // after samples were decided
    (Start::Quiet, "#5 1! #10 0! 0~", 13, VcdCause::Code),
    (Start::Quiet, "#5 1! #4", 6, VcdCause::TimeBack),
    (Start::Quiet, "#5 1! b1", 8, VcdCause::Cut),
];

/// Texts that are read: what stands before, the text, and its samples.
pub(crate) static GOOD: [Good; 114] = [
    // sections that are read past
    (Start::Lines, "$enddefinitions $end", &[]),
    (
        Start::Lines,
        "$enddefinitions what # $var 2! $dumpvars $end",
        &[],
    ),
    (Start::Lines, "$end $end $enddefinitions $end", &[]),
    (
        Start::Lines,
        "$comment $var wire 9 ! BCLK $end $enddefinitions $end",
        &[],
    ),
    (
        Start::Lines,
        "$anything 1 2 3 $end $ x $end $enddefinitions $end",
        &[],
    ),
    (
        Start::Lines,
        "$dumpvars 2! ~ $end $enddefinitions $end",
        &[],
    ),
    (
        Start::Lines,
        "$upscope $var wire x $end $enddefinitions $end",
        &[],
    ),
    // other variables
    (
        Start::Lines,
        "$var wire 0 a a $end $var wire 1000000 b b $end $enddefinitions $end",
        &[],
    ),
    (
        Start::Lines,
        "$var wire 0001000000 a a $end $enddefinitions $end",
        &[],
    ),
    (
        Start::Lines,
        "$var wire 1 q other $end $enddefinitions $end b10101 q 0q xq Bz q",
        &[],
    ),
    // a line that is not needed: not declared, declared and never set, and set
    (
        Start::Lines,
        "$enddefinitions $end 0! #5 1!",
        &[(Rest::Unknown, &[])],
    ),
    (
        Start::Lines,
        "$var wire 1 a LOCK_n $end $enddefinitions $end 0! #5 1!",
        &[(Rest::Unknown, &[Mark::Unknown(Lines::LOCK)])],
    ),
    (
        Start::Lines,
        "$var wire 1 a LOCK_n $end $enddefinitions $end 0! 0a #5 1!",
        &[(Rest::Unknown, &[Mark::Asserts(Lines::LOCK)])],
    ),
    (
        Start::Lines,
        "$var\twire\r\n1\x0ba\x0cLOCK_n $end\n$enddefinitions\n\n$end\r\n0!\r\n0a\r\n#5\r\n1!\r\n",
        &[(Rest::Unknown, &[Mark::Asserts(Lines::LOCK)])],
    ),
    // types, widths, names and further words of a declaration
    (
        Start::Lines,
        "$var reg 001 a LOCK_n $end $enddefinitions $end 0! 0a #5 1!",
        &[(Rest::Unknown, &[Mark::Asserts(Lines::LOCK)])],
    ),
    (
        Start::Lines,
        "$var Real 1 a LOCK_n $end $enddefinitions $end 0! 0a #5 1!",
        &[(Rest::Unknown, &[Mark::Asserts(Lines::LOCK)])],
    ),
    (
        Start::Lines,
        "$var parameter 000000000000000000000000000001 a LOCK_n $end $enddefinitions $end 0! 0a #5 1!",
        &[(Rest::Unknown, &[Mark::Asserts(Lines::LOCK)])],
    ),
    (
        Start::Lines,
        "$var wire 1 a LOCK_n [0:0] more $comment # $end $enddefinitions $end 0! 0a #5 1!",
        &[(Rest::Unknown, &[Mark::Asserts(Lines::LOCK)])],
    ),
    (
        Start::Lines,
        "$var wire 1 a LOCK_n[0] $end $enddefinitions $end 0! 0a #5 1!",
        &[(Rest::Unknown, &[Mark::Asserts(Lines::LOCK)])],
    ),
    (
        Start::Lines,
        "$var wire 1 a LOCK_n[ $end $enddefinitions $end 0! 0a #5 1!",
        &[(Rest::Unknown, &[Mark::Asserts(Lines::LOCK)])],
    ),
    (
        Start::Lines,
        "$var wire 1 a [LOCK_n] $end $enddefinitions $end 0! 0a #5 1!",
        &[(Rest::Unknown, &[])],
    ),
    (
        Start::Lines,
        "$var wire 1 a lock_n $end $enddefinitions $end 0! 0a #5 1!",
        &[(Rest::Unknown, &[])],
    ),
    (
        Start::Lines,
        "$var wire 1 a LOCK_nn $end $enddefinitions $end 0! 0a #5 1!",
        &[(Rest::Unknown, &[])],
    ),
    (
        Start::Lines,
        "$var real 1 a LOCK_n $end $enddefinitions $end 0! 0a #5 1!",
        &[(Rest::Unknown, &[])],
    ),
    (
        Start::Lines,
        "$var realtime 64 a LOCK_n $end $enddefinitions $end 0! 0a #5 1!",
        &[(Rest::Unknown, &[])],
    ),
    (
        Start::Lines,
        "$var string 8 a LOCK_n $end $enddefinitions $end 0! 0a #5 1!",
        &[(Rest::Unknown, &[])],
    ),
    // a name that is declared twice, scopes, and codes that are shared
    (
        Start::Lines,
        "$var wire 1 a LOCK_n $end $var wire 1 b LOCK_n $end $enddefinitions $end 0! 0a 1b #5 1!",
        &[(Rest::Unknown, &[Mark::Asserts(Lines::LOCK)])],
    ),
    (
        Start::Lines,
        "$var wire 1 a LOCK_n $end $var wire 1 b LOCK_n $end $enddefinitions $end 0! 1a 0b #5 1!",
        &[(Rest::Unknown, &[])],
    ),
    (
        Start::Lines,
        "$var wire 1 a LOCK_n $end $var wire 7 b LOCK_n $end $enddefinitions $end 0! 0a b1111111 b #5 1!",
        &[(Rest::Unknown, &[Mark::Asserts(Lines::LOCK)])],
    ),
    (
        Start::Lines,
        "$var real 64 a LOCK_n $end $var wire 1 b LOCK_n $end $enddefinitions $end 0! 0b r0.5 a #5 1!",
        &[(Rest::Unknown, &[Mark::Asserts(Lines::LOCK)])],
    ),
    (
        Start::Lines,
        "$scope module x $end $var wire 1 a LOCK_n $end $scope module y $end $var wire 1 b LOCK_n $end $upscope $end $upscope $end $enddefinitions $end 0! 1b 0a #5 1!",
        &[(Rest::Unknown, &[Mark::Asserts(Lines::LOCK)])],
    ),
    (
        Start::Lines,
        "$var wire 1 a LOCK_n $end $var wire 1 a BNR_n $end $var wire 9 a other $end $enddefinitions $end 0! 0a #5 1!",
        &[(
            Rest::Unknown,
            &[Mark::Asserts(Lines::LOCK), Mark::Asserts(Lines::BNR)],
        )],
    ),
    (
        Start::Lines,
        "$var wire 1 ! LOCK_n $end $enddefinitions $end 0! #5 1!",
        &[(Rest::Unknown, &[Mark::Asserts(Lines::LOCK)])],
    ),
    (
        Start::Lines,
        "$var wire 1 * LOCK_n $end $enddefinitions $end 0! b1 * #5 1!",
        &[(Rest::Unknown, &[Mark::Req(0x1e, 0)])],
    ),
    // codes of every kind
    (
        Start::Lines,
        "$var wire 1 #5 LOCK_n $end $enddefinitions $end 0! b0 #5 #5 1!",
        &[(Rest::Unknown, &[Mark::Asserts(Lines::LOCK)])],
    ),
    (
        Start::Lines,
        "$var wire 1 $x LOCK_n $end $enddefinitions $end 0! 0$x #5 1!",
        &[(Rest::Unknown, &[Mark::Asserts(Lines::LOCK)])],
    ),
    (
        Start::Lines,
        "$var wire 1 ~ LOCK_n $end $enddefinitions $end 0! b0 ~ #5 1!",
        &[(Rest::Unknown, &[Mark::Asserts(Lines::LOCK)])],
    ),
    (
        Start::Lines,
        "$var wire 1 0123456789abcdef LOCK_n $end $enddefinitions $end 0! 00123456789abcdef #5 1!",
        &[(Rest::Unknown, &[Mark::Asserts(Lines::LOCK)])],
    ),
    // reals and strings
    (
        Start::Lines,
        "$var real 64 m volts $end $var string 1 s note $end $enddefinitions $end 0! r1.2 m R-1e9 m r m rhello m swords s S s #5 1!",
        &[(Rest::Unknown, &[])],
    ),
    (Start::Quiet, "#4 r0 ) s0 ) #5 1!", &[(Rest::Idle, &[])]),
    // times
    (Start::Values, "", &[]),
    (Start::Values, "#0", &[]),
    (Start::Values, "#18446744073709551615", &[]),
    (Start::Values, "#00000000000000000005 #5 #05 #6", &[]),
    (
        Start::Quiet,
        "#18446744073709551615 1!",
        &[(Rest::Idle, &[])],
    ),
    // the dump words, and sections among the values
    (
        Start::Values,
        "$dumpvars $end $dumpall $end $dumpon $end $dumpoff $end $end",
        &[],
    ),
    (
        Start::Values,
        "$dumpvars 0! $dumpoff #0 1! $dumpall",
        &[(Rest::Unknown, &[])],
    ),
    (Start::Values, "$comment 2! #x hello 0~ $end", &[]),
    (
        Start::Values,
        "$var wire 9 ! BCLK $end $enddefinitions $end",
        &[],
    ),
    (Start::Values, "$dumpports 0! $end #5 1!", &[]),
    (
        Start::Quiet,
        "$comment #5 1! $end #5 1! $end",
        &[(Rest::Idle, &[])],
    ),
    // rises: what the clock is before and after a block
    (Start::Values, "1! 0! 1! x! 0!", &[]),
    (Start::Values, "#0 0! #5 1!", &[(Rest::Unknown, &[])]),
    (Start::Values, "0! #0 1!", &[(Rest::Unknown, &[])]),
    (Start::Values, "0! 1! #0", &[]),
    (Start::Values, "#0 1!", &[]),
    (Start::Values, "#0 x! #5 1!", &[]),
    (Start::Values, "#0 z! #5 1!", &[]),
    (Start::Values, "#0 0! #5 x! #10 1!", &[]),
    (Start::Values, "#0 0! #5 Z! #10 1!", &[]),
    (Start::Values, "#0 0! #5 x!", &[]),
    (Start::Values, "#0 0! #5 z!", &[]),
    (Start::Quiet, "", &[]),
    (Start::Quiet, "#5 1!", &[(Rest::Idle, &[])]),
    (Start::Quiet, "#5\n1!\n", &[(Rest::Idle, &[])]),
    (Start::Quiet, "#0 1!", &[]),
    (Start::Quiet, "1!", &[]),
    (Start::Quiet, "#5 1! 0!", &[]),
    (Start::Quiet, "#5 1! #5 0!", &[]),
    (Start::Quiet, "#5 1! 0! 1!", &[(Rest::Idle, &[])]),
    (Start::Quiet, "#5 x! 1!", &[(Rest::Idle, &[])]),
    (
        Start::Quiet,
        "#5 1! #10 0! #15 1! #20 0! #25 1!",
        &[(Rest::Idle, &[]), (Rest::Idle, &[]), (Rest::Idle, &[])],
    ),
    (Start::Quiet, "#5 1! #10 1! #15 1!", &[(Rest::Idle, &[])]),
    (
        Start::Quiet,
        "#5 b1 ! #10 b0 ! #15 B1 !",
        &[(Rest::Idle, &[]), (Rest::Idle, &[])],
    ),
    // a sample is what stands before its block
    (Start::Quiet, "#5 0) 1!", &[(Rest::Idle, &[])]),
    (Start::Quiet, "#5 1! 0)", &[(Rest::Idle, &[])]),
    (Start::Quiet, "#5 0) #5 1!", &[(Rest::Idle, &[])]),
    (Start::Quiet, "#5 0) #05 1!", &[(Rest::Idle, &[])]),
    (
        Start::Quiet,
        "#4 0) #5 1!",
        &[(Rest::Idle, &[Mark::Asserts(Lines::ADS)])],
    ),
    (
        Start::Quiet,
        "#4 0) 1) 0) #5 1! 1)",
        &[(Rest::Idle, &[Mark::Asserts(Lines::ADS)])],
    ),
    (
        Start::Quiet,
        "#4 0) #5 1! 1) #10 0! #15 1!",
        &[
            (Rest::Idle, &[Mark::Asserts(Lines::ADS)]),
            (Rest::Idle, &[]),
        ],
    ),
    (
        Start::Quiet,
        "#5 1! 0) #10 0! #15 1!",
        &[
            (Rest::Idle, &[]),
            (Rest::Idle, &[Mark::Asserts(Lines::ADS)]),
        ],
    ),
    // a single line
    (
        Start::Quiet,
        "#4 0\" #5 1!",
        &[(Rest::Idle, &[Mark::Asserts(Lines::BREQ0)])],
    ),
    (Start::Quiet, "#4 z) #5 1!", &[(Rest::Idle, &[])]),
    (Start::Quiet, "#4 0) Z) #5 1!", &[(Rest::Idle, &[])]),
    (
        Start::Quiet,
        "#4 x) #5 1!",
        &[(Rest::Idle, &[Mark::Unknown(Lines::ADS)])],
    ),
    (
        Start::Quiet,
        "#4 X) #5 1!",
        &[(Rest::Idle, &[Mark::Unknown(Lines::ADS)])],
    ),
    (
        Start::Quiet,
        "#4 b0 - B0 . b0 1 b0 2 b0 3 #5 1!",
        &[(
            Rest::Idle,
            &[
                Mark::Asserts(Lines::HIT),
                Mark::Asserts(Lines::HITM),
                Mark::Asserts(Lines::TRDY),
                Mark::Asserts(Lines::DBSY),
                Mark::Asserts(Lines::DRDY),
            ],
        )],
    ),
    // the request word, and digits that are fewer than its lines
    (
        Start::Quiet,
        "#4 b11001 * #5 1!",
        &[(Rest::Idle, &[Mark::Req(0x06, 0)])],
    ),
    (
        Start::Quiet,
        "#4 b0 * #5 1!",
        &[(Rest::Idle, &[Mark::Req(0x1f, 0)])],
    ),
    (
        Start::Quiet,
        "#4 b1 * #5 1!",
        &[(Rest::Idle, &[Mark::Req(0x1e, 0)])],
    ),
    (
        Start::Quiet,
        "#4 b01 * #5 1!",
        &[(Rest::Idle, &[Mark::Req(0x1e, 0)])],
    ),
    (
        Start::Quiet,
        "#4 bx * #5 1!",
        &[(Rest::Idle, &[Mark::Req(0, 0x1f)])],
    ),
    (
        Start::Quiet,
        "#4 bX1 * #5 1!",
        &[(Rest::Idle, &[Mark::Req(0, 0x1e)])],
    ),
    (Start::Quiet, "#4 bz * #5 1!", &[(Rest::Idle, &[])]),
    (
        Start::Quiet,
        "#4 BZ0 * #5 1!",
        &[(Rest::Idle, &[Mark::Req(0x01, 0)])],
    ),
    (
        Start::Quiet,
        "#4 b01x * #5 1!",
        &[(Rest::Idle, &[Mark::Req(0x1c, 0x01)])],
    ),
    (
        Start::Quiet,
        "#4 b1x0z1 * #5 1!",
        &[(Rest::Idle, &[Mark::Req(0x04, 0x08)])],
    ),
    (
        Start::Quiet,
        "#4 0* #5 1!",
        &[(Rest::Idle, &[Mark::Req(0x1f, 0)])],
    ),
    (
        Start::Quiet,
        "#4 1* #5 1!",
        &[(Rest::Idle, &[Mark::Req(0x1e, 0)])],
    ),
    (
        Start::Quiet,
        "#4 x* #5 1!",
        &[(Rest::Idle, &[Mark::Req(0, 0x1f)])],
    ),
    (Start::Quiet, "#4 0* z* #5 1!", &[(Rest::Idle, &[])]),
    // the response
    (
        Start::Quiet,
        "#4 b110 0 #5 1!",
        &[(Rest::Idle, &[Mark::Asserts(Lines::RS0)])],
    ),
    (
        Start::Quiet,
        "#4 b011 0 #5 1!",
        &[(Rest::Idle, &[Mark::Asserts(Lines::RS2)])],
    ),
    (
        Start::Quiet,
        "#4 b0 0 #5 1!",
        &[(
            Rest::Idle,
            &[
                Mark::Asserts(Lines::RS0),
                Mark::Asserts(Lines::RS1),
                Mark::Asserts(Lines::RS2),
            ],
        )],
    ),
    (
        Start::Quiet,
        "#4 10 #5 1!",
        &[(
            Rest::Idle,
            &[Mark::Asserts(Lines::RS1), Mark::Asserts(Lines::RS2)],
        )],
    ),
    (
        Start::Quiet,
        "#4 bx01 0 #5 1!",
        &[(
            Rest::Idle,
            &[Mark::Asserts(Lines::RS1), Mark::Unknown(Lines::RS2)],
        )],
    ),
    // the address and the data
    (
        Start::Quiet,
        "#4 b111111111111111111111111111110111 + #5 1!",
        &[(Rest::Idle, &[Mark::Addr(0x8, 0)])],
    ),
    (
        Start::Quiet,
        "#4 b0 + #5 1!",
        &[(Rest::Idle, &[Mark::Addr(0x1_ffff_ffff, 0)])],
    ),
    (
        Start::Quiet,
        "#4 b1111 + #5 1!",
        &[(Rest::Idle, &[Mark::Addr(0x1_ffff_fff0, 0)])],
    ),
    (
        Start::Quiet,
        "#4 bx1010 + #5 1!",
        &[(Rest::Idle, &[Mark::Addr(0x5, 0x1_ffff_fff0)])],
    ),
    (
        Start::Quiet,
        "#4 b0 4 #5 1!",
        &[(Rest::Idle, &[Mark::Data(0xffff_ffff_ffff_ffff, 0)])],
    ),
    (
        Start::Quiet,
        "#4 b1z0x 4 #5 1!",
        &[(Rest::Idle, &[Mark::Data(0xffff_ffff_ffff_fff2, 0x1)])],
    ),
    // every line at once
    (
        Start::Quiet,
        "#4 x\" x) x- x. x1 x2 x3 bx * bx + bx 0 bx 4 #5 1!",
        &[(Rest::Unknown, &[])],
    ),
];
