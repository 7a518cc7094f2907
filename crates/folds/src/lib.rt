// What every crate shares: the theory of sums, maxima, counts and searches over 0 .. n - 1 in specs/ and proofs/, and a division.
#![tactic(auto)]

ghost use Rattle.std.specs.Prelude.{◌≡◌, ◌+◌, ◌<◌, ◌≤◌, ◌^◌};
ghost use Rattle.folds.specs.Folds.{ceil_div};

// x / y rounded up, by one division alone: `div_ceil` looks at the remainder too, and a pass of bus 3 takes a fifth longer with it.
pub fn ceil_div(x: u64, y: u64) -> u64
    requires { (0 < y) × (x + y ≤ 2 ^ 64) }
    ensures { (result ≡ ceil_div x y) × (result ≤ x) }
{
    (x + (y - 1)) / y
}

// x / y rounded up, with no division where x is at most y: for callers that often have it so.
pub fn ceil_div_tested(x: u64, y: u64) -> u64
    requires { (0 < y) × (x + y ≤ 2 ^ 64) }
    ensures { (result ≡ ceil_div x y) × (result ≤ x) }
{
    if x <= y { x.min(1) } else { ceil_div(x, y) }
}
