//! Day numbers and civil dates by `jiff`. Days are counted from 1970-01-01.
ghost use Rattle.std.specs.Prelude.{◌≡◌, pos};
ghost use Rattle.std.specs.Int.{int_rem_euclid};
ghost use Rattle.jiff.specs.Words.{IsEpochDay, civil_nanos, epoch_day};
ghost use Rattle.jiff_core.specs.Time.{time_seconds};
ghost use Rattle.sq_schema.specs.Intervals.{day_of_moment};
ghost use Rattle.sq_schema.specs.Moments.{IsMoment};

use crate::interval::DAY;
use jiff::SignedDuration;
use jiff::civil::{Date, DateTime, date, datetime};

fn day_zero() -> Date
    ensures { epoch_day result ≡ pos 0 }
{
    date(1970, 1, 1)
}

fn moment_zero() -> DateTime
    ensures { civil_nanos result ≡ pos 0 }
{
    datetime(1970, 1, 1, 0, 0, 0, 0)
}

/// The number of a day.
pub(crate) fn number_of(day: Date) -> i32
    ensures value { result ≡ epoch_day day }
    ensures bound { IsEpochDay result }
{
    (day_zero().duration_until(day).as_secs() / DAY) as i32
}

/// The date and the time of a moment, in UTC.
pub(crate) fn civil_of(moment: i64) -> DateTime
    requires { IsMoment moment }
    ensures date { epoch_day result.date ≡ day_of_moment moment }
    ensures time { pos (time_seconds result.time) ≡ int_rem_euclid moment (pos 86_400) }
{
    moment_zero()
        .checked_add(SignedDuration::from_secs(moment))
        .unwrap()
}
