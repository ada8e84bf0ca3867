// The limits of a vault's shortening threshold.
#![tactic(auto)]

ghost use Rattle.std.specs.Prelude.{◌≡◌};
ghost use Rattle.threshold.specs.Threshold.{threshold_right};

const LEAST: u32 = 36;

const MOST: u32 = 220;

/// Is the number a threshold?
pub fn threshold_right(n: u32) -> bool
    ensures { result ≡ threshold_right n }
{
    if n < LEAST {
        return false;
    }
    n <= MOST
}
