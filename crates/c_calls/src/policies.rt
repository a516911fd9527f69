// Referrer policies by their numbers (Referrer Policy, section 3).
ghost use Rattle.std.specs.Prelude.{◌≡◌};
ghost use Rattle.c_calls.specs.Referrers.{policy_numbered};

use value_requests::ReferrerPolicy;

/// No policy: the default one, strict-origin-when-cross-origin, counts.
pub const REFERRER_DEFAULT: u32 = 0;

pub const REFERRER_NO_REFERRER: u32 = 1;

pub const REFERRER_NO_REFERRER_WHEN_DOWNGRADE: u32 = 2;

pub const REFERRER_SAME_ORIGIN: u32 = 3;

pub const REFERRER_ORIGIN: u32 = 4;

pub const REFERRER_STRICT_ORIGIN: u32 = 5;

pub const REFERRER_ORIGIN_WHEN_CROSS_ORIGIN: u32 = 6;

pub const REFERRER_STRICT_ORIGIN_WHEN_CROSS_ORIGIN: u32 = 7;

pub const REFERRER_UNSAFE_URL: u32 = 8;

// The policy of a number, if it is one.
pub(crate) fn policy_numbered(number: u32) -> Option<ReferrerPolicy>
    ensures { result ≡ policy_numbered number }
{
    match number {
        REFERRER_DEFAULT => Some(ReferrerPolicy::Empty),
        REFERRER_NO_REFERRER => Some(ReferrerPolicy::NoReferrer),
        REFERRER_NO_REFERRER_WHEN_DOWNGRADE => Some(ReferrerPolicy::NoReferrerWhenDowngrade),
        REFERRER_SAME_ORIGIN => Some(ReferrerPolicy::SameOrigin),
        REFERRER_ORIGIN => Some(ReferrerPolicy::Origin),
        REFERRER_STRICT_ORIGIN => Some(ReferrerPolicy::StrictOrigin),
        REFERRER_ORIGIN_WHEN_CROSS_ORIGIN => Some(ReferrerPolicy::OriginWhenCrossOrigin),
        REFERRER_STRICT_ORIGIN_WHEN_CROSS_ORIGIN => {
            Some(ReferrerPolicy::StrictOriginWhenCrossOrigin)
        }
        REFERRER_UNSAFE_URL => Some(ReferrerPolicy::UnsafeUrl),
        _ => None,
    }
}
