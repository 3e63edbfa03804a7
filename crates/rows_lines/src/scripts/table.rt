/// Texts with a first bad line, one in each row: what stands before the text, the text, in which `/` stands for a line feed, and
/// the line with its cause.
pub(crate) const BAD: &str = "\
whole||1 FirstLine
whole|/|1 FirstLine
whole|p6bench 2|1 FirstLine
whole|p6bench|1 FirstLine
whole|p6bench 1 1/|1 FirstLine
whole|#/p6bench 1/|1 FirstLine
whole|P6bench 1/|1 FirstLine
whole|p6bench 01/|1 FirstLine
whole|agents 1/|1 FirstLine
whole|p6bench 1|2 Missing
whole|p6bench 1/|2 Missing
whole| p6bench\t1 \r/|2 Missing
whole|p6bench 1//# x/|4 Missing
whole|p6bench 1/clocks 1/|2 Word
whole|p6bench 1/ \t\r/clocks 1/|3 Word
whole|p6bench 1/agents/|2 Missing
whole|p6bench 1/agents x/|2 Number
whole|p6bench 1/agents -1/|2 Number
whole|p6bench 1/agents 0/|2 Range
whole|p6bench 1/agents 5/|2 Range
whole|p6bench 1/agents 5 6/|2 Range
whole|p6bench 1/agents 1 1/|2 After
whole|p6bench 1/agents 2 1/|2 After
whole|p6bench 1/agents 2/|3 Missing
whole|p6bench 1/agents 4/|3 Missing
whole|p6bench 1/agents 000000000000000001/|3 Missing
whole|p6bench 1/agents 0000000000000000001/|2 Number
whole|p6bench 1/agents 1/agents 1/|3 Word
whole|p6bench 1/agents 1/clocks/|3 Missing
whole|p6bench 1/agents 1/clocks 1a/|3 Number
whole|p6bench 1/agents 1/clocks 200001/|3 Range
whole|p6bench 1/agents 1/clocks 999999999999999999/|3 Range
whole|p6bench 1/agents 1/clocks 200000/|4 Missing
whole|p6bench 1/agents 1/clocks 1 2/|3 After
whole|p6bench 1/agents 1/cache 1/|3 Word
whole|p6bench 1/agents 1/clocks 0/cache/|4 Missing
whole|p6bench 1/agents 1/clocks 0/cache x/|4 Number
whole|p6bench 1/agents 1/clocks 0/cache 3/|4 Range
whole|p6bench 1/agents 1/clocks 0/cache 0/|4 Range
whole|p6bench 1/agents 1/clocks 0/cache 2048/|4 Range
whole|p6bench 1/agents 1/clocks 0/cache 3 1/|4 Range
whole|p6bench 1/agents 1/clocks 0/cache 1024/|5 Missing
whole|p6bench 1/agents 1/clocks 0/cache 1 1/|4 After
whole|p6bench 1/agents 1/clocks 0/ahead 1/|4 Word
whole|p6bench 1/agents 1/clocks 0/cache 1/ahead/|5 Missing
whole|p6bench 1/agents 1/clocks 0/cache 1/ahead q/|5 Number
whole|p6bench 1/agents 1/clocks 0/cache 1/ahead 0/|5 Range
whole|p6bench 1/agents 1/clocks 0/cache 1/ahead 5/|5 Range
whole|p6bench 1/agents 1/clocks 0/cache 1/ahead 2 2/|5 After
whole|p6bench 1/agents 1/clocks 0/cache 1/ahead 2/|6 Missing
whole|p6bench 1/agents 1/clocks 0/cache 1/ahead 4/|6 Missing
whole|p6bench 1/agents 1/clocks 0/cache 1/mem 40 07/|5 Word
head||6 Missing
head|foo/|6 Word
head|ld 1 40/|6 Word
head|end/|6 Word
head|tx 0 retry/|6 Word
head|profile/|6 Missing
head|profile x/|6 Number
head|profile 0/|6 Range
head|profile 3/|6 Range
head|profile 3 1/|6 Range
head|profile 1 1/|6 After
head|profile 2 1/|6 After
head|profile 2/|7 Missing
head|profile 1/|7 Missing
head|profile 1/profile 1/|7 Word
head|profile 1/profile 2/|7 Word
head|profile 1/ahead 1/|7 Word
head|bridge 0 20/profile 1/|7 Word
head|bridge 0 20/bridge 0 20/|7 Word
head|mem 40 07/profile 1/|7 Word
items|profile 1/|7 Word
tail|profile 1/|9 Word
whole|p6bench 1/profile 1/|2 Word
whole|p6bench 1/agents 1/clocks 0/cache 1/profile 1/ahead 1/|5 Word
head|bridge/|6 Missing
head|bridge 1000/|6 Missing
head|bridge xyz 20/|6 Number
head|bridge 0 xyz/|6 Number
head|bridge 1000000000 20/|6 Outside
head|bridge fffffffff 20/|6 Align
head|bridge fffffffe0 20/|7 Missing
head|bridge fffffffe0 40/|6 Outside
head|bridge fffffffe0 40 1/|6 Outside
head|bridge 10 20/|6 Align
head|bridge 10/|6 Align
head|bridge 0 0/|6 Align
head|bridge 0 10/|6 Align
head|bridge 0 1000000001/|6 Outside
head|bridge 0 1000000000/|7 Missing
head|bridge 0 20 1/|6 After
head|bridge 1000 20/|7 Missing
head|mem/|6 Missing
head|mem 40/|6 Missing
head|mem g 07/|6 Number
head|mem 12345678901234567 07/|6 Number
head|mem 0000000000000040 07/|7 Missing
head|mem 1000000000 07/|6 Outside
head|mem 1000000000/|6 Outside
head|mem fffffffff 07/|7 Missing
head|mem fffffffff 0708/|6 Outside
head|mem fffffffff 0708 1/|6 Outside
head|mem 40 7/|6 Number
head|mem 40 070/|6 Number
head|mem 40 0g/|6 Number
head|mem 40 07 08/|6 After
head|mem 40 00000000000000000000000000000000000000000000000000000000000000000000000000000000000000000000000000000000000000000000000000000000/|7 Missing
head|mem 40 0000000000000000000000000000000000000000000000000000000000000000000000000000000000000000000000000000000000000000000000000000000000/|6 Number
head|mem 40 07/bridge 0 20/|7 Word
head|agent/|6 Missing
head|agent x/|6 Number
head|agent 1/|6 Word
head|agent 1 2/|6 Word
head|agent 0 0/|6 After
head|agent 00/|7 Missing
head|agent 0/agent 0/|7 Word
items||7 Missing
items|ld 1 40/|8 Missing
items|ld 1 40|8 Missing
items|foo/|7 Word
items|unlock/|7 Word
items|mem 40 07/|7 Word
items|LD 1 40/|7 Word
items|ld/|7 Missing
items|ld 1/|7 Missing
items|ld x 40/|7 Number
items|ld 3 40/|7 Range
items|ld 0 40/|7 Range
items|ld 16 40/|7 Range
items|ld 3 41/|7 Range
items|ld 1 zz/|7 Number
items|ld 1 1000000000/|7 Outside
items|ld 2 1000000001/|7 Outside
items|ld 2 41/|7 Align
items|ld 4 42/|7 Align
items|ld 8 44/|7 Align
items|ld 2 41 1/|7 Align
items|ld 1 40 1/|7 After
items|st/|7 Missing
items|st 1 40/|7 Missing
items|st 1 40 g/|7 Number
items|st 1 40 r+/|7 Number
items|st 1 40 r+g/|7 Number
items|st 1 40 r/|7 Number
items|st 1 40 R+1/|7 Number
items|st 1 40 100/|7 Range
items|st 1 40 r+100/|7 Range
items|st 2 40 10000/|7 Range
items|st 4 40 100000000/|7 Range
items|st 8 40 10000000000000000/|7 Number
items|st 1 40 100 1/|7 Range
items|st 1 40 1 1/|7 After
items|st 2 41 100/|7 Align
items|idle/|7 Missing
items|idle x/|7 Number
items|idle 0/|7 Range
items|idle 200001/|7 Range
items|idle 1 1/|7 After
items|idle 1/|8 Missing
items|idle 200000/|8 Missing
items|lock x/|7 After
items|lock/|8 Missing
items|end 1/|7 After
items|ld 1 40/st 1 840 100/|8 Range
items|lock/ld 1 40/end/|9 Word
lock||8 Missing
lock|ld 1 40/|9 Missing
lock|lock/|8 Word
lock|idle 1/|8 Word
lock|end/|8 Word
lock|ld 2 41/|8 Align
lock|st 1 40 100/|8 Range
lock|unlock/|8 LockSize
lock|unlock 1/|8 After
lock|ld 1 40/unlock/unlock/|10 Word
lock|ld 1 0/ld 1 20/ld 1 40/ld 1 60/ld 1 80/unlock/|13 LockSize
lock|ld 1 0/ld 1 20/ld 1 40/ld 1 60/ld 1 80/unlock 1/|13 After
lock|ld 1 0/ld 1 20/ld 1 40/ld 1 60/ld 1 800/unlock/|13 LockSize
lock|ld 1 0/ld 1 0/ld 1 0/ld 1 0/ld 1 0/ld 1 0/ld 1 0/ld 1 0/ld 1 0/unlock/|17 LockSize
lock|ld 1 40/st 1 840 1/unlock/|10 LockConflict
lock|ld 1 40/st 1 840 1/unlock 1/|10 After
two|agent 1/|6 Word
two|agent 0/end/|8 Missing
two|agent 0/end/agent 0/|8 Word
two|agent 0/end/mem 40 07/|8 Word
two|agent 0/end/tx 0 retry/|8 Word
two|agent 0/end/ld 1 40/|8 Word
two|agent 0/end/agent 1/end/agent 2/|10 Word
tail|agent 1/|9 Word
tail|ld 1 40/|9 Word
tail|end/|9 Word
tail|tx/|9 Missing
tail|tx x/|9 Number
tail|tx 200000/|9 Range
tail|tx 0/|9 Missing
tail|tx 0 foo/|9 Word
tail|tx 200000 foo/|9 Range
tail|tx 0 stall/|9 Missing
tail|tx 0 stall 0/|9 Range
tail|tx 0 stall 256/|9 Range
tail|tx 0 stall x/|9 Number
tail|tx 0 stall 1 1/|9 After
tail|tx 0 trdy 256/|9 Range
tail|tx 0 resp 0/|9 Range
tail|tx 0 data/|9 Missing
tail|tx 0 gap 1/|9 Word
tail|tx 0 retry 1/|9 After
tail|tx 0 defer/|9 Missing
tail|tx 0 defer 65536/|9 Range
tail|tx 0 aerr 1/|9 After
tail|bnr/|9 Missing
tail|bnr 0/|9 Missing
tail|bnr x 1/|9 Number
tail|bnr 0 x/|9 Number
tail|bnr 200000 1/|9 Range
tail|bnr 0 200000/|9 Range
tail|bnr 5 4/|9 Range
tail|bnr 5 4 1/|9 Range
tail|bnr 0 9 1/|9 After
head|mem 40 07/agent 0/ld 1 40/|9 Missing
head|mem 40 07/agent 0/ld 2 41/st 1 41 5/end/|8 Align
whole|p6bench 1/agents 1/clocks 60/cache 1/ahead 1/agent 0/lock/ld 1 40/st 1 80 1/unlock/end/|10 LockConflict
whole|p6bench 1/agents 1/clocks 0/cache 1/ahead 1/mem fE 0aB0/agent 0/st 8 40 R/end/|8 Number
";

/// Texts that are plans, in the same form.
pub(crate) const GOOD: &str = "\
items|end/|read
items|end|read
items|ld 1 40/end/|read
items|ld 8 ffffffff8/end/|read
items|st 1 40 ff/end/|read
items|st 1 40 r+ff/end/|read
items|st 2 40 ffff/end/|read
items|st 4 40 ffffffff/end/|read
items|st 8 40 ffffffffffffffff/end/|read
items|st 8 40 FFFFffffFFFFffff\r/end\r/|read
items|ld 1 40/ld 1 5f/ld 1 60/end/|read
items|/# comment/\tld\t1  40 \r/#ld/end /|read
head|mem 40 07/mem 40 08/agent 0/end/|read
head|profile 1/mem 40 07/agent 0/end/|read
head|/profile 01 \r/# none/agent 0/end/|read
head|mem 40 00000000000000000000000000000000000000000000000000000000000000000000000000000000000000000000000000000000000000000000000000000000/agent 0/end/|read
head|mem fffffffff 07/agent 0/end/|read
whole|p6bench 1\r/agents 1\r/clocks 0\r/cache 1\r/ahead 1\r/agent 0\r/end|read
items| \t# ld/ \t#/end/|read
tail|# tx/# y|read
tail|//|read
head|profile 2/agent 0/end/|read
head|profile 1/bridge 1000 20/mem 40 07/agent 0/end/|read
head|profile 2/bridge 0 1000000000/agent 0/end/|read
head|bridge fffffffe0 20/agent 0/end/|read
items|idle 1/idle 200000/end/|read
items|ld 1 40/ld 1 840/st 1 40 1/end/|read
lock|ld 1 40/st 1 40 r+1/unlock/ld 1 840/end/|read
lock|ld 1 0/ld 1 20/ld 1 40/ld 1 60/unlock/idle 5/end/|read
lock|ld 1 0/ld 1 0/ld 1 0/ld 1 0/ld 1 0/ld 1 0/ld 1 0/ld 1 0/unlock/end/|read
two|agent 0/end/agent 1/end/|read
two|agent 0/ld 1 40/end/agent 1/st 1 5f 1/ld 1 840/end/tx 0 retry/|read
whole|p6bench 1/agents 4/clocks 0/cache 1/ahead 4/agent 0/end/agent 1/end/agent 2/end/agent 3/end/|read
whole|p6bench 1/agents 3/clocks 0/cache 1/ahead 3/agent 0/end/agent 1/end/agent 2/end/|read
whole|p6bench 1/agents 1/clocks 0/cache 1/ahead 2/agent 0/end/|read
tail|tx 0 stall 1/|read
tail|tx 0 trdy 255/|read
tail|tx 0 resp 1/|read
tail|tx 0 data 1/|read
tail|tx 199999 retry/|read
tail|tx 0 defer 65535/|read
tail|tx 0 defer 0/|read
tail|tx 0 aerr/|read
tail|bnr 0 9/|read
tail|bnr 199999 199999/|read
tail|/#c/\ttx 0 retry\r/|read
";
