// How many digits a number has, by comparisons with the powers of ten.
ghost use Rattle.std.specs.Prelude.{◌≡◌, ◌≤◌, length, decimal};

// The powers of ten from 10 on.
static POWERS: [u64; 19] = [
    10,
    100,
    1_000,
    10_000,
    100_000,
    1_000_000,
    10_000_000,
    100_000_000,
    1_000_000_000,
    10_000_000_000,
    100_000_000_000,
    1_000_000_000_000,
    10_000_000_000_000,
    100_000_000_000_000,
    1_000_000_000_000_000,
    10_000_000_000_000_000,
    100_000_000_000_000_000,
    1_000_000_000_000_000_000,
    10_000_000_000_000_000_000,
];

// How many digits a number has.
pub(super) fn digit_count(n: u64) -> usize
    ensures count { result ≡ length (decimal n) }
    ensures bound { result ≤ 20 }
{
    let mut count = 1;
    for power in &POWERS {
        if n < *power {
            return count;
        }
        count += 1;
    }
    count
}
