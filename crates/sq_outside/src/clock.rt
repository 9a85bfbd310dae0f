//! The system's clock.
use std::rt::Clock;
use std::time::{SystemTime, UNIX_EPOCH};

/// UTC seconds since 1970-01-01T00:00:00Z, or 0 where the clock has no answer or stands before that.
pub fn seconds_now(rt: &impl Clock) -> i64 {
    let Ok(now) = SystemTime::now(rt) else {
        return 0;
    };
    match now.duration_since(UNIX_EPOCH) {
        Ok(since) => i64::try_from(since.as_secs()).unwrap_or(i64::MAX),
        Err(_) => 0,
    }
}
