//! Ten mixed runs, and what their caches have as they end: of each line that an agent holds, and that has come, its state and one of
//! its bytes. They are those of the simulator in Python, lab/second_bench.py.

use crate::lent::{Lent, Run};
use fsb_cache::Mesi;

const MIXED_00: &str =
    "p6bench 1\nagents 3\nclocks 70\ncache 1\nahead 2\nprofile 2\nmem ffffff800 c3\nmem ffffff820 0e\nmem ffffff85d b0\nagent 0\nld 4 ffffff800\nidle 6\nld 4 ffffff824\nend\nagent 1\nst 2 ffffff800 dfb0\nst 4 ffffff840 r+a3e4e2d9\nend\nagent 2\nld 1 ffffff813\nlock\nst 2 ffffff81e r+0\nld 2 ffffff818\nst 4 ffffff814 r+3\nld 1 ffffff800\nld 2 ffffff816\nst 8 ffffff800 r+8365342c55a871bf\nunlock\nld 4 ffffff82c\nend\ntx 22 aerr\ntx 20 aerr\ntx 5 trdy 3\ntx 19 trdy 1\ntx 3 data 1\ntx 12 retry\ntx 3 stall 1\ntx 0 trdy 1\ntx 18 defer 1\ntx 3 resp 1\ntx 17 stall 1\ntx 19 retry\ntx 0 defer 1\ntx 2 trdy 2\ntx 3 retry\ntx 21 defer 4\ntx 0 retry\n";

const MIXED_01: &str =
    "p6bench 1\nagents 2\nclocks 52\ncache 16\nahead 4\nbridge 600 40\nmem 669 76\nmem 637 2f\nmem 611 d8\nmem 616 a5\nagent 0\nst 8 618 65b548e7181a59a2\nend\nagent 1\nlock\nst 4 640 r+826c0924\nst 4 600 4aae0bcf\nst 2 620 r+57c6\nld 8 660\nld 2 612\nunlock\nst 4 640 a7aa760c\nst 2 660 9b39\nlock\nld 2 620\nld 2 63c\nld 1 620\nld 2 620\nld 8 638\nld 2 620\nld 2 620\nunlock\nst 2 640 c353\nst 1 60f 57\nst 2 644 760f\nst 4 600 84e2dc10\nst 2 604 79a2\nend\ntx 25 data 4\ntx 20 defer 8\ntx 24 data 2\ntx 2 stall 2\ntx 8 retry\ntx 26 data 2\ntx 17 resp 2\ntx 15 trdy 2\ntx 16 aerr\ntx 0 defer 5\ntx 2 resp 1\ntx 26 resp 9\ntx 17 trdy 1\ntx 8 aerr\ntx 2 data 1\ntx 8 data 1\n";

const MIXED_02: &str =
    "p6bench 1\nagents 4\nclocks 83\ncache 8\nahead 4\nbridge ffffff800 60\nmem ffffff812 5c\nmem ffffff80e f7\nagent 0\nld 8 ffffff820\nend\nagent 1\nld 8 ffffff840\nld 1 ffffff81d\nld 4 ffffff800\nld 4 ffffff840\nend\nagent 2\nld 2 ffffff812\nld 4 ffffff814\nst 2 ffffff80a 44a0\nend\nagent 3\nld 2 ffffff80c\nld 1 ffffff83c\nld 4 ffffff808\nld 8 ffffff818\nld 1 ffffff820\nld 2 ffffff800\nld 8 ffffff800\nidle 8\nend\ntx 6 defer 13\ntx 11 trdy 1\ntx 22 data 1\ntx 27 retry\nbnr 147 158\n";

const MIXED_03: &str =
    "p6bench 1\nagents 4\nclocks 63\ncache 2\nahead 1\nprofile 2\nmem 8e 56\nmem 45 47\nagent 0\nld 2 ee\nld 8 40\nst 1 b7 bf\nlock\nst 4 40 c3bb544a\nld 4 a0\nunlock\nst 8 e0 3c0601ed0b86be28\nld 8 90\nld 4 54\nend\nagent 1\nst 8 c0 f43b79b8dbbec019\nst 1 e0 r+1\nld 4 48\nld 1 e6\nend\nagent 2\nld 2 60\nst 8 60 64d08daaf35de238\nld 1 89\nst 8 c0 r+1\nld 2 e2\nld 8 48\nld 4 d8\nend\nagent 3\nst 4 40 r+d9a1b190\nidle 4\nidle 3\nst 2 40 r+0\nld 8 48\nld 8 80\nld 1 7b\nend\ntx 8 data 1\ntx 9 resp 1\ntx 12 trdy 4\ntx 12 resp 1\ntx 12 data 6\ntx 13 aerr\ntx 13 defer 10\ntx 17 resp 4\ntx 20 resp 4\ntx 20 aerr\ntx 32 stall 1\ntx 33 retry\ntx 45 data 1\ntx 45 trdy 1\ntx 45 retry\ntx 46 trdy 1\ntx 53 data 2\ntx 53 data 1\n";

const MIXED_04: &str =
    "p6bench 1\nagents 2\nclocks 83\ncache 1\nahead 2\nbridge ffffffc0 20\nagent 0\nld 2 100000034\nlock\nld 8 100000020\nld 8 100000030\nld 1 10000002c\nst 8 100000030 8f5e3fdaa7cd36ac\nld 8 100000020\nunlock\nst 2 ffffffc0 r+30fb\nst 4 10000002c r+2\nidle 5\nst 1 ffffffc0 r+3\nld 1 ffffffd6\nld 2 100000020\nld 8 ffffffd8\nend\nagent 1\nld 4 ffffffd0\nidle 7\nld 4 100000028\nld 1 ffffffdd\nidle 2\nld 4 ffffffcc\nend\ntx 0 stall 4\ntx 6 trdy 9\ntx 6 aerr\ntx 6 aerr\ntx 6 aerr\ntx 8 retry\ntx 9 defer 10\ntx 9 resp 4\ntx 18 aerr\ntx 22 retry\n";

const MIXED_05: &str =
    "p6bench 1\nagents 3\nclocks 61\ncache 2\nahead 3\nprofile 2\nmem fbad25a2 1d\nmem fbad25a3 87\nmem fbad25d6 a0\nmem fbad25c5 99\nagent 0\nst 2 fbad25da r+1\nld 2 fbad25d8\nld 4 fbad25a8\nld 8 fbad25a0\nst 2 fbad25a0 r+2910\nld 2 fbad25a0\nst 8 fbad25a0 1d163b014b12c573\nend\nagent 1\nst 4 fbad25b0 ae3f42d3\nst 8 fbad25a0 895691bbe67fc66a\nst 4 fbad25c4 9b62793b\nst 8 fbad25a0 r+2\nend\nagent 2\nst 2 fbad25bc r+1\nend\ntx 19 aerr\ntx 2 aerr\n";

const MIXED_06: &str =
    "p6bench 1\nagents 2\nclocks 71\ncache 1\nahead 3\nmem 93e896f8 e7\nmem 93e896a6 3d\nmem 93e896a4 88\nmem 93e896d1 35\nagent 0\nld 1 93e896e3\nld 8 93e896a0\nld 4 93e896d4\nst 8 93e896a0 5abaa18f0913f420\nend\nagent 1\nlock\nld 1 93e896ac\nunlock\nld 1 93e896c0\nidle 10\nidle 38\nend\ntx 0 aerr\ntx 4 resp 2\ntx 8 trdy 1\ntx 8 resp 3\ntx 8 stall 1\ntx 9 aerr\ntx 13 data 2\ntx 13 defer 12\ntx 19 resp 2\n";

const MIXED_07: &str =
    "p6bench 1\nagents 2\nclocks 57\ncache 8\nahead 3\nprofile 2\nbridge 40945b620 20\nmem 40945b607 76\nagent 0\nst 4 40945b5c0 r+2\nst 1 40945b5d5 55\nld 8 40945b5c0\nst 2 40945b5ec r+2\nld 2 40945b5f2\nst 8 40945b5e0 r+1\nld 4 40945b600\nld 1 40945b5f7\nend\nagent 1\nld 1 40945b615\nld 2 40945b64a\nld 8 40945b5d0\nend\ntx 0 aerr\ntx 4 retry\ntx 6 trdy 1\ntx 6 resp 1\ntx 19 retry\ntx 20 defer 13\ntx 22 stall 2\ntx 22 stall 3\ntx 24 resp 1\ntx 26 aerr\ntx 26 aerr\ntx 29 data 1\nbnr 76 95\nbnr 116 118\nbnr 10 13\nbnr 51 51\n";

const MIXED_08: &str =
    "p6bench 1\nagents 1\nclocks 77\ncache 8\nahead 4\nbridge 60 c0\nmem 112 61\nmem 9d 1d\nmem 117 7d\nmem 67 21\nmem 119 96\nagent 0\nld 8 100\nld 8 118\nld 2 100\nidle 2\nst 2 100 r+0\nst 4 100 13533b4f\nlock\nst 4 c0 79d783c5\nst 4 80 r+3\nunlock\nend\ntx 5 trdy 2\ntx 3 stall 1\ntx 1 resp 2\ntx 18 data 1\ntx 9 data 2\ntx 1 data 2\ntx 1 stall 1\ntx 8 resp 2\ntx 4 resp 1\ntx 15 aerr\ntx 1 defer 6\ntx 13 retry\ntx 5 resp 1\ntx 5 aerr\ntx 11 retry\ntx 11 resp 1\ntx 15 data 1\ntx 0 defer 5\ntx 1 aerr\ntx 18 data 6\nbnr 19 21\ntx 0 defer 2\ntx 18 stall 2\ntx 5 stall 4\ntx 5 stall 2\ntx 0 resp 1\ntx 2 defer 12\ntx 11 retry\ntx 11 resp 2\ntx 5 trdy 1\ntx 3 aerr\n";

const MIXED_09: &str =
    "p6bench 1\nagents 1\nclocks 84\ncache 2\nahead 4\nprofile 2\nbridge 700 40\nmem 6d3 e0\nmem 724 6f\nmem 739 55\nmem 652 fa\nagent 0\nld 2 6ce\nst 4 734 7bce2d26\nld 2 72c\nlock\nst 1 69e 61\nld 8 720\nld 8 738\nunlock\nst 2 680 c389\nlock\nst 1 739 r+1\nunlock\nld 2 73c\nlock\nld 2 652\nld 1 73a\nunlock\nend\ntx 4 retry\ntx 8 aerr\n";

const LENT_00: [Lent; 3] = [
    (0, 2147483585, Mesi::Shared, 0, Some(14)),
    (1, 2147483586, Mesi::Modified, 0, Some(217)),
    (2, 2147483585, Mesi::Shared, 0, Some(14)),
];

const LENT_01: [Lent; 4] = [
    (1, 48, Mesi::Modified, 0, Some(16)),
    (1, 49, Mesi::Modified, 0, Some(198)),
    (1, 50, Mesi::Modified, 0, Some(83)),
    (1, 51, Mesi::Modified, 0, Some(57)),
];

const LENT_02: [Lent; 6] = [
    (0, 2147483585, Mesi::Shared, 0, Some(0)),
    (1, 2147483584, Mesi::Shared, 10, Some(160)),
    (1, 2147483586, Mesi::Exclusive, 0, Some(0)),
    (2, 2147483584, Mesi::Shared, 10, Some(160)),
    (3, 2147483584, Mesi::Shared, 10, Some(160)),
    (3, 2147483585, Mesi::Shared, 0, Some(0)),
];

const LENT_03: [Lent; 5] = [
    (0, 2, Mesi::Modified, 0, Some(74)),
    (0, 5, Mesi::Modified, 23, Some(191)),
    (1, 7, Mesi::Modified, 0, Some(1)),
    (2, 3, Mesi::Modified, 0, Some(56)),
    (2, 6, Mesi::Modified, 0, Some(1)),
];

const LENT_04: [Lent; 1] = [(1, 134217726, Mesi::Shared, 0, Some(251))];

const LENT_05: [Lent; 2] = [
    (0, 131950893, Mesi::Modified, 0, Some(115)),
    (1, 131950894, Mesi::Modified, 4, Some(59)),
];

const LENT_06: [Lent; 2] = [
    (0, 77546677, Mesi::Modified, 0, Some(32)),
    (1, 77546678, Mesi::Shared, 17, Some(53)),
];

const LENT_07: [Lent; 6] = [
    (0, 541732270, Mesi::Shared, 0, Some(2)),
    (0, 541732271, Mesi::Modified, 0, Some(1)),
    (0, 541732272, Mesi::Shared, 7, Some(118)),
    (1, 541732270, Mesi::Shared, 0, Some(2)),
    (1, 541732272, Mesi::Shared, 7, Some(118)),
    (1, 541732274, Mesi::Exclusive, 0, Some(0)),
];

const LENT_08: [Lent; 3] = [
    (0, 4, Mesi::Modified, 0, Some(3)),
    (0, 6, Mesi::Modified, 0, Some(197)),
    (0, 8, Mesi::Modified, 0, Some(79)),
];

const LENT_09: [Lent; 2] = [
    (0, 50, Mesi::Modified, 18, Some(250)),
    (0, 57, Mesi::Modified, 4, Some(111)),
];

/// The runs, at their ends.
pub(crate) const MIXED: [Run<'static>; 10] = [
    (MIXED_00, 3, &[(70, &LENT_00, &[])]),
    (MIXED_01, 2, &[(52, &LENT_01, &[])]),
    (MIXED_02, 4, &[(83, &LENT_02, &[])]),
    (MIXED_03, 4, &[(63, &LENT_03, &[])]),
    (MIXED_04, 2, &[(83, &LENT_04, &[])]),
    (MIXED_05, 3, &[(61, &LENT_05, &[])]),
    (MIXED_06, 2, &[(71, &LENT_06, &[])]),
    (MIXED_07, 2, &[(57, &LENT_07, &[])]),
    (MIXED_08, 1, &[(77, &LENT_08, &[])]),
    (MIXED_09, 1, &[(84, &LENT_09, &[])]),
];
