//! The search for a clock that does not begin anew.
ghost use Rattle.std.specs.Prelude.{◌≡◌, ℕ, ◌<◌, Bool, IfSome};
ghost use Rattle.fsb_count.specs.Clocks.{nth_where, from_clock};

/// The `k`-th clock from `first` on and below `n` that passes, from 0.
pub fn nth_from<F: Fn(usize) -> bool>(first: usize, k: usize, n: usize, test: F) -> Option<usize>
    requires { (c : ℕ) → c < n → F.pre test c }
    ensures value { (p : ℕ → Bool) → ((c : ℕ) (b : Bool) → c < n → F.post test c b → b ≡ p c) →
        result ≡ nth_where (from_clock first p) k n }
    ensures below { IfSome result (λ c. c < n) }
{
    let mut passed = 0;
    for c in first..n {
        if test(c) {
            if passed == k {
                return Some(c);
            }
            passed += 1;
        }
    }
    None
}
