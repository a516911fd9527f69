// The choices of a request by their numbers, and its texts.
ghost use Rattle.std.specs.Prelude.{◌≡◌};
ghost use Rattle.c_calls.specs.Choices as spec;

use crate::policies::policy_numbered;
use c_fetch::{Choice, Words};
use value_requests::{Credentials, CrossOrigin, Destination, Mode, RedirectMode};

/// Mode: one of the numbers `MODE_..`.
pub const CHOOSE_MODE: u32 = 0;

pub const MODE_SAME_ORIGIN: u32 = 0;

pub const MODE_NO_CORS: u32 = 1;

pub const MODE_CORS: u32 = 2;

pub const MODE_NAVIGATE: u32 = 3;

/// Credentials mode: one of the numbers `CREDENTIALS_..`.
pub const CHOOSE_CREDENTIALS: u32 = 1;

pub const CREDENTIALS_OMIT: u32 = 0;

pub const CREDENTIALS_SAME_ORIGIN: u32 = 1;

pub const CREDENTIALS_INCLUDE: u32 = 2;

/// Redirect mode: one of the numbers `REDIRECT_..`.
pub const CHOOSE_REDIRECT: u32 = 2;

pub const REDIRECT_FOLLOW: u32 = 0;

pub const REDIRECT_ERROR: u32 = 1;

pub const REDIRECT_MANUAL: u32 = 2;

/// Whether the referrer is the client, 1, or none, 0.
pub const CHOOSE_REFERRER: u32 = 3;

/// Referrer policy: one of the numbers `REFERRER_..`.
pub const CHOOSE_REFERRER_POLICY: u32 = 4;

/// Whether an upload listener is there, 1, or not, 0.
pub const CHOOSE_UPLOAD: u32 = 5;

/// The `crossorigin` attribute of an element that loads: one of the numbers `CROSSORIGIN_..`.
pub const CHOOSE_CROSSORIGIN: u32 = 6;

pub const CROSSORIGIN_ABSENT: u32 = 0;

pub const CROSSORIGIN_ANONYMOUS: u32 = 1;

pub const CROSSORIGIN_USE_CREDENTIALS: u32 = 2;

/// Whether a parser inserted the element that loads, 1, or not, 0.
pub const CHOOSE_PARSER: u32 = 7;

/// What an element loads.
pub const LOAD_IMAGE: u32 = 1;

pub const LOAD_AUDIO: u32 = 2;

pub const LOAD_VIDEO: u32 = 3;

pub const LOAD_STYLE: u32 = 4;

pub const LOAD_SCRIPT: u32 = 5;

pub const LOAD_FONT: u32 = 6;

pub const LOAD_MANIFEST: u32 = 7;

/// The texts of a request.
pub const REQUEST_BODY: u32 = 0;

pub const REQUEST_INTEGRITY: u32 = 1;

pub const REQUEST_NONCE: u32 = 2;

// The mode of a number.
fn mode_numbered(number: u32) -> Option<Mode>
    ensures { result ≡ spec.mode_numbered number }
{
    match number {
        MODE_SAME_ORIGIN => Some(Mode::SameOrigin),
        MODE_NO_CORS => Some(Mode::NoCors),
        MODE_CORS => Some(Mode::Cors),
        MODE_NAVIGATE => Some(Mode::Navigate),
        _ => None,
    }
}

// The credentials mode of a number.
fn credentials_numbered(number: u32) -> Option<Credentials>
    ensures { result ≡ spec.credentials_numbered number }
{
    match number {
        CREDENTIALS_OMIT => Some(Credentials::Omit),
        CREDENTIALS_SAME_ORIGIN => Some(Credentials::SameOrigin),
        CREDENTIALS_INCLUDE => Some(Credentials::Include),
        _ => None,
    }
}

// The redirect mode of a number.
fn redirect_numbered(number: u32) -> Option<RedirectMode>
    ensures { result ≡ spec.redirect_numbered number }
{
    match number {
        REDIRECT_FOLLOW => Some(RedirectMode::Follow),
        REDIRECT_ERROR => Some(RedirectMode::Error),
        REDIRECT_MANUAL => Some(RedirectMode::Manual),
        _ => None,
    }
}

// The CORS settings of a number.
fn crossorigin_numbered(number: u32) -> Option<CrossOrigin>
    ensures { result ≡ spec.crossorigin_numbered number }
{
    match number {
        CROSSORIGIN_ABSENT => Some(CrossOrigin::Absent),
        CROSSORIGIN_ANONYMOUS => Some(CrossOrigin::Anonymous),
        CROSSORIGIN_USE_CREDENTIALS => Some(CrossOrigin::UseCredentials),
        _ => None,
    }
}

// The test of a number: 1 where it holds, and 0 where not.
fn test_numbered(number: u32) -> Option<bool>
    ensures { result ≡ spec.test_numbered number }
{
    match number {
        0 => Some(false),
        1 => Some(true),
        _ => None,
    }
}

// The choice of two numbers.
pub(crate) fn choice_numbered(choice: u32, number: u32) -> Option<Choice>
    ensures { result ≡ spec.choice_numbered choice number }
{
    match choice {
        CHOOSE_MODE => mode_numbered(number).map(|mode| Choice::Mode(mode)),
        CHOOSE_CREDENTIALS => credentials_numbered(number).map(|mode| Choice::Credentials(mode)),
        CHOOSE_REDIRECT => redirect_numbered(number).map(|mode| Choice::Redirect(mode)),
        CHOOSE_REFERRER => test_numbered(number).map(|client| Choice::ClientReferrer(client)),
        CHOOSE_REFERRER_POLICY => policy_numbered(number).map(|policy| Choice::Policy(policy)),
        CHOOSE_UPLOAD => test_numbered(number).map(|upload| Choice::Upload(upload)),
        CHOOSE_CROSSORIGIN => crossorigin_numbered(number).map(|state| Choice::CrossOrigin(state)),
        CHOOSE_PARSER => test_numbered(number).map(|parser| Choice::Parser(parser)),
        _ => None,
    }
}

// What an element loads, by a number.
pub(crate) fn load_numbered(number: u32) -> Option<Destination>
    ensures { result ≡ spec.load_numbered number }
{
    match number {
        LOAD_IMAGE => Some(Destination::Image),
        LOAD_AUDIO => Some(Destination::Audio),
        LOAD_VIDEO => Some(Destination::Video),
        LOAD_STYLE => Some(Destination::Style),
        LOAD_SCRIPT => Some(Destination::Script),
        LOAD_FONT => Some(Destination::Font),
        LOAD_MANIFEST => Some(Destination::Manifest),
        _ => None,
    }
}

// The text of a number.
pub(crate) fn words_numbered(number: u32) -> Option<Words>
    ensures { result ≡ spec.words_numbered number }
{
    match number {
        REQUEST_BODY => Some(Words::Body),
        REQUEST_INTEGRITY => Some(Words::Integrity),
        REQUEST_NONCE => Some(Words::Nonce),
        _ => None,
    }
}
