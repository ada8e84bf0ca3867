// A range of a cleartext: whether it lies inside, and its parts.
ghost use Rattle.std.specs.Prelude.{◌≡◌, ◌+◌, ◌-◌, ◌≤◌, ◌<◌, min, ltb};

// Does the range end past n? Its end may not fit, and then it does.
pub fn outside(n: usize, from: usize, count: usize) -> bool
    ensures { result ≡ ltb n (from + count) }
{
    from.checked_add(count).is_none_or(|end| n < end)
}

// How much of the rest of a chunk, from its byte lo on, is wanted.
pub fn part_len(lo: usize, left: usize) -> usize
    requires { (lo < 32768) × (0 < left) }
    ensures { (result ≡ min (32768 - lo) left) × (0 < result) × (lo + result ≤ 32768) × (result ≤ left) }
{
    left.min(32768 - lo)
}
