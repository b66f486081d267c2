//! Sums of scores, without ever making room by rounding all of them down.
ghost use Rattle.std.specs.Prelude.{◌≡◌, ◌≤◌, ◌<◌, ◌*◌, ◌^◌};
ghost use Rattle.activity_order.specs.Scores.{score_sum, sum_above, eighth_more, carried, lowered};

// the first bump adds so much: a mantissa with its top bit set, and an exponent that leaves room below
pub(crate) const FIRST_STEP: u64 = 274_877_906_944 + 2_147_483_648;

// one more than the greatest mantissa
const UNIT: u64 = 4_294_967_296;

/// The sum of two scores, which is at least each of them.
pub(crate) fn sum(one: u64, other: u64) -> u64
    ensures value { result ≡ score_sum one other }
    ensures least { one ≤ result }
{
    if other <= one {
        sum_from(one, other)
    } else {
        sum_from(other, one)
    }
}

/// An eighth more.
pub(crate) fn raise(score: u64) -> u64
    requires large { 3 * 2 ^ 32 ≤ score }
    ensures value { result ≡ eighth_more score }
    ensures least { score ≤ result }
{
    sum(score, score - 3 * UNIT)
}

/// The sum of two scores, the higher one first.
fn sum_from(high: u64, low: u64) -> u64
    requires { low ≤ high }
    ensures value { result ≡ sum_above high low }
    ensures least { high ≤ result }
{
    let exponent = high / UNIT;
    carry(exponent, high % UNIT + part(low, exponent - low / UNIT))
}

/// What counts of the lower score.
fn part(low: u64, apart: u64) -> u64
    ensures value { result ≡ lowered low apart }
    ensures small { result < 2 ^ 32 }
{
    if 32 <= apart {
        return 0;
    }
    (low % UNIT) >> apart
}

/// The score with that exponent and mantissa, which may have a bit too many.
fn carry(exponent: u64, mantissa: u64) -> u64
    requires exponent { exponent < 2 ^ 32 }
    requires mantissa { mantissa < 2 * 2 ^ 32 }
    ensures value { result ≡ carried exponent mantissa }
    ensures least { exponent * 2 ^ 32 ≤ result }
{
    if mantissa < UNIT {
        return exponent * UNIT + mantissa;
    }
    if exponent >= UNIT - 1 {
        return u64::MAX;
    }
    (exponent + 1) * UNIT + mantissa / 2
}
