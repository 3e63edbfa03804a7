ghost use Rattle.std.specs.Prelude.{◌≡◌};
ghost use Rattle.fsb_signal.specs.Parity.{marks_in};

/// Which of the two parity lines a dump declares; what is not declared is not judged.
#[derive(Clone, Copy, Debug, PartialEq, Eq)]
pub struct Marks {
    /// Whether it declares `AP_n`, the parity of the address.
    pub ap: bool,
    /// Whether it declares `RP_n`, the parity of the request.
    pub rp: bool,
}

impl Marks {
    /// The marks of a dump that is written in this profile: both lines in profile 2, neither in profile 1.
    pub fn of_profile(profile: u8) -> Marks
        ensures { result ≡ marks_in profile }
    {
        Marks {
            ap: profile == 2,
            rp: profile == 2,
        }
    }
}
