//! How many lists a client can take back.

ghost use Rattle.std.specs.Prelude.{◌≡◌, ◌≤◌, length, drop};
ghost use Rattle.list_archive.specs.Limits.{fits, newest};
ghost use Rattle.list_archive.specs.Archives.{stored_size};

use list_shelf::Lag;

/// How many lists before the one that it has a client can go back to.
pub const MAX_PAST: usize = 100;

/// How many selections these lists may have together.
pub const MAX_PAST_SELECTIONS: usize = 262_144;

/// Whether so many lists are allowed, counted as they are stored.
pub(crate) fn fits(lags: &[Lag]) -> bool
    ensures { result ≡ fits stored_size lags.now }
{
    if lags.len() > MAX_PAST {
        return false;
    }
    let mut sum = 0;
    for lag in lags {
        let count = lag.sels.len();
        if count > MAX_PAST_SELECTIONS - sum {
            return false;
        }
        sum += count;
    }
    true
}

/// How many of the oldest of some lists are too many.
pub(crate) fn count_too_many(lags: &[Lag]) -> usize
    ensures within { result ≤ length lags.now }
    ensures newest { drop result lags.now ≡ newest stored_size lags.now }
{
    let mut oldest = 0;
    while oldest + 1 < lags.len() {
        if fits(&lags[oldest..]) {
            return oldest;
        }
        oldest += 1;
    }
    oldest
}
