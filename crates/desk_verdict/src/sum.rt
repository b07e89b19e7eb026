// Sums that stay at the greatest number: no count of them comes back to 0.
ghost use Rattle.std.specs.Prelude.{◌≡◌};
ghost use Rattle.desk_verdict.specs.Standing.{plus};

// The sum of two numbers, or the greatest number where 64 bits do not hold it. The name stays: `plus` is a call that docs/ promises.
#[tactic(auto, unfolding(crate::specs::Standing::plus))]
pub fn plus(a: u64, b: u64) -> u64
    ensures { result ≡ plus a b }
{
    a.saturating_add(b)
}
