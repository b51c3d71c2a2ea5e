// A test of each number below a count.
ghost use Rattle.std.specs.Prelude.{ℕ, ◌<◌, true, false, MatchResult};

// `Err` has the lowest number below `count` that does not pass.
pub(crate) fn check_below<F: Fn(u16) -> bool>(count: u16, passes: F) -> Result<(), u16>
    requires { (n : ℕ) → n < count → F.pre passes n }
    ensures { MatchResult result (λ _. (n : ℕ) → n < count → F.post passes n true) (λ k. (k < count) × F.post passes k false × ((n : ℕ) → n < k → F.post passes n true)) }
{
    for number in 0..count {
        if !passes(number) {
            return Err(number);
        }
    }
    Ok(())
}
