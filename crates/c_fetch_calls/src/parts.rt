// The parts of acts and outcomes by their numbers.
ghost use Rattle.std.specs.Prelude.{◌≡◌};
ghost use Rattle.c_fetch_calls.specs.Parts as spec;

use c_fetch::{Amount, Part};

/// The serialised origin: of the server that is sent to, or of the request that a call of the preflight cache is
/// for.
pub const TEXT_ORIGIN: u32 = 0;

/// The request target that is sent, the URL of a call of the preflight cache, the one that violates a policy, or
/// the response's.
pub const TEXT_URL: u32 = 1;

/// The method that is sent, or that the preflight cache is asked for, if any.
pub const TEXT_METHOD: u32 = 2;

/// The body that is sent, or that came whole.
pub const TEXT_BODY: u32 = 3;

/// The name of a header that is sent, or of the response.
pub const TEXT_HEADER_NAME: u32 = 4;

/// The value of such a header.
pub const TEXT_HEADER_VALUE: u32 = 5;

/// The host that the book is asked for or notes.
pub const TEXT_HOST: u32 = 6;

/// The key of the preflight cache's part.
pub const TEXT_KEY: u32 = 7;

/// A header name that the preflight cache is asked for or learns.
pub const TEXT_NAME: u32 = 8;

/// A method that the preflight cache learns.
pub const TEXT_LEARNT: u32 = 9;

/// The name of the directive that is violated, of the response's type, or of the network error.
pub const TEXT_WORD: u32 = 10;

/// The name of the header that a preflight did not allow.
pub const TEXT_REFUSED: u32 = 11;

/// What the book is asked or told: one of the numbers `CALL_..`.
pub const NUMBER_CALL: u32 = 0;

/// The time of that, in seconds.
pub const NUMBER_TIME: u32 = 1;

/// How many seconds a host or an entry is known.
pub const NUMBER_AGE: u32 = 2;

/// 1 where the names under the host are known too.
pub const NUMBER_SUBDOMAINS: u32 = 3;

/// 1 where the credentials mode is include.
pub const NUMBER_INCLUDE: u32 = 4;

/// 1 where a preflight is sent.
pub const NUMBER_PREFLIGHT: u32 = 5;

/// The number of the policy that is violated.
pub const NUMBER_POLICY: u32 = 6;

/// 1 where that is enforced.
pub const NUMBER_ENFORCED: u32 = 7;

/// What the fetch came to: one of the numbers `OUTCOME_..`.
pub const NUMBER_OUTCOME: u32 = 8;

/// The response's status.
pub const NUMBER_STATUS: u32 = 9;

/// The number of the network error: one of the numbers `ERROR_..`.
pub const NUMBER_ERROR: u32 = 10;

/// How the body ended: one of the numbers `END_..`.
pub const NUMBER_END: u32 = 11;

/// How many bytes of the body came.
pub const NUMBER_COUNT: u32 = 12;

/// How many headers are sent, or the response has.
pub const NUMBER_HEADERS: u32 = 13;

/// How many header names the preflight cache is asked for or learns.
pub const NUMBER_NAMES: u32 = 14;

/// How many methods it learns.
pub const NUMBER_METHODS: u32 = 15;

// The text of a number.
pub(crate) fn part_numbered(number: u32) -> Option<Part>
    ensures { result ≡ spec.part_numbered number }
{
    match number {
        TEXT_ORIGIN => Some(Part::Origin),
        TEXT_URL => Some(Part::Url),
        TEXT_METHOD => Some(Part::Method),
        TEXT_BODY => Some(Part::Body),
        TEXT_HEADER_NAME => Some(Part::HeaderName),
        TEXT_HEADER_VALUE => Some(Part::HeaderValue),
        TEXT_HOST => Some(Part::Host),
        TEXT_KEY => Some(Part::Key),
        TEXT_NAME => Some(Part::Name),
        TEXT_LEARNT => Some(Part::Learnt),
        TEXT_WORD => Some(Part::Word),
        TEXT_REFUSED => Some(Part::Refused),
        _ => None,
    }
}

// The number of a number.
pub(crate) fn amount_numbered(number: u32) -> Option<Amount>
    ensures { result ≡ spec.amount_numbered number }
{
    match number {
        NUMBER_CALL => Some(Amount::Call),
        NUMBER_TIME => Some(Amount::Time),
        NUMBER_AGE => Some(Amount::Age),
        NUMBER_SUBDOMAINS => Some(Amount::Subdomains),
        NUMBER_INCLUDE => Some(Amount::Include),
        NUMBER_PREFLIGHT => Some(Amount::Preflight),
        NUMBER_POLICY => Some(Amount::Policy),
        NUMBER_ENFORCED => Some(Amount::Enforced),
        NUMBER_OUTCOME => Some(Amount::Outcome),
        NUMBER_STATUS => Some(Amount::Status),
        NUMBER_ERROR => Some(Amount::Error),
        NUMBER_END => Some(Amount::End),
        NUMBER_COUNT => Some(Amount::Count),
        NUMBER_HEADERS => Some(Amount::Headers),
        NUMBER_NAMES => Some(Amount::Names),
        NUMBER_METHODS => Some(Amount::Methods),
        _ => None,
    }
}
