//! The words over a test of a clock, as loops.

ghost use Rattle.std.specs.Prelude.{◌≡◌, ℕ, ◌<◌, Bool, IfSome};
ghost use Rattle.fsb_count.specs.Clocks.{first_where, any_where, count_where, nth_where};

/// The first clock below `n` that passes.
pub fn first_where<F: Fn(usize) -> bool>(n: usize, test: F) -> Option<usize>
    requires { (c : ℕ) → c < n → F.pre test c }
    ensures value { (p : ℕ → Bool) → ((c : ℕ) (b : Bool) → c < n → F.post test c b → b ≡ p c) →
        result ≡ first_where p n }
    ensures below { IfSome result (λ c. c < n) }
{
    for c in 0..n {
        if test(c) {
            return Some(c);
        }
    }
    None
}

/// Whether some clock below `n` passes.
pub fn any_where<F: Fn(usize) -> bool>(n: usize, test: F) -> bool
    requires { (c : ℕ) → c < n → F.pre test c }
    ensures { (p : ℕ → Bool) → ((c : ℕ) (b : Bool) → c < n → F.post test c b → b ≡ p c) →
        result ≡ any_where p n }
{
    for c in 0..n {
        if test(c) {
            return true;
        }
    }
    false
}

/// How many clocks below `n` pass.
pub fn count_where<F: Fn(usize) -> bool>(n: usize, test: F) -> usize
    requires { (c : ℕ) → c < n → F.pre test c }
    ensures { (p : ℕ → Bool) → ((c : ℕ) (b : Bool) → c < n → F.post test c b → b ≡ p c) →
        result ≡ count_where p n }
{
    let mut count = 0;
    for c in 0..n {
        if test(c) {
            count += 1;
        }
    }
    count
}

/// The clock below `n` that passes and before which `k` pass.
pub fn nth_where<F: Fn(usize) -> bool>(k: usize, n: usize, test: F) -> Option<usize>
    requires { (c : ℕ) → c < n → F.pre test c }
    ensures value { (p : ℕ → Bool) → ((c : ℕ) (b : Bool) → c < n → F.post test c b → b ≡ p c) →
        result ≡ nth_where p k n }
    ensures below { IfSome result (λ c. c < n) }
{
    let mut passed = 0;
    for c in 0..n {
        if test(c) {
            if passed == k {
                return Some(c);
            }
            passed += 1;
        }
    }
    None
}
