/// The declarations of the needed lines, with the codes of a written dump.
pub(crate) const LINES: &str = "\
$var wire 1 ! BCLK $end
$var wire 1 \" BREQ0_n $end
$var wire 1 ) ADS_n $end
$var wire 5 * REQ_n $end
$var wire 33 + A_n $end
$var wire 1 - HIT_n $end
$var wire 1 . HITM_n $end
$var wire 3 0 RS_n $end
$var wire 1 1 TRDY_n $end
$var wire 1 2 DBSY_n $end
$var wire 1 3 DRDY_n $end
$var wire 64 4 D_n $end
";

/// The end of the declarations.
pub(crate) const VALUES: &str = "$enddefinitions $end\n";

/// At time 0 the clock is low and no other needed line is asserted.
pub(crate) const QUIET: &str = "#0\n0!\n1\"\n1)\nbz *\nbz +\n1-\n1.\nbz 0\n11\n12\n13\nbz 4\n";

/// The declarations of the two parity lines, with the codes of a written dump.
pub(crate) const PARITY_LINES: &str = "$var wire 2 5 AP_n [1:0] $end\n$var wire 1 6 RP_n $end\n";

/// Neither of them is asserted.
pub(crate) const PARITY_QUIET: &str = "bz 5\n16\n";
