//! Times in nanoseconds, compared and added exactly up to the end of time.
ghost use Rattle.std.specs.Prelude.{◌≡◌, ◌↔◌, pos, ◌+ℤ◌, ◌≤ℤ◌, ◌<ℤ◌, IsTrue, IsFalse};
ghost use Rattle.moment_rules.specs.Times.{never, is_expired, sum_until_end, is_reached};

/// The end of time, in nanoseconds: later than every moment. As an expiration it means never.
pub const END: i64 = i64::MAX;

/// Whether something with this expiration has expired at the moment `now`, both in nanoseconds.
/// It expires at the moment of its expiration.
pub fn expired(expiration: i64, now: i64) -> bool
    ensures value { result ≡ is_expired expiration now }
    ensures exact { IsTrue result ↔ (expiration ≤ℤ now) }
    ensures never_expires { expiration ≡ never → now <ℤ never → IsFalse result }
{
    expiration <= now
}

/// The time that is `duration` after `moment`, both in nanoseconds, or the end of time if that comes first.
pub fn add_until(moment: i64, duration: i64) -> i64
    requires moment { pos 0 ≤ℤ moment }
    requires duration { pos 0 ≤ℤ duration }
    ensures value { result ≡ sum_until_end moment duration }
    ensures fits { (moment +ℤ duration) ≤ℤ never → result ≡ moment +ℤ duration }
    ensures stops { never ≤ℤ (moment +ℤ duration) → result ≡ never }
    ensures later { moment ≤ℤ result }
{
    moment.saturating_add(duration)
}

/// Whether a deadline has come at the moment `now`, both in nanoseconds.
/// It is reached at its own moment and from then on, and at the end of time never.
pub fn reached(deadline: i64, now: i64) -> bool
    ensures value { result ≡ is_reached deadline now }
    ensures exact { IsTrue result ↔ ((deadline ≤ℤ now) × (deadline <ℤ never)) }
    ensures never_reached { deadline ≡ never → IsFalse result }
    ensures at_moment { now <ℤ never → (IsTrue result ↔ (deadline ≤ℤ now)) }
{
    deadline <= now && deadline < END
}
