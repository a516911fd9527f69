// How a call went.

/// It was done; it holds; it passes.
pub const OK: u32 = 0;

/// It does not hold; it does not pass; there is none.
pub const NO: u32 = 1;

/// A handle holds nothing of the kind that the call is for. Nothing is changed.
pub const WRONG_HANDLE: u32 = 2;

/// Memory was refused. What handles hold is as it was, except that the fetch given to `fiorrudda_ask`,
/// `fiorrudda_input`, `fiorrudda_feed` or `fiorrudda_judge` is lost, and that the book may have done what it was asked:
/// in `fiorrudda_ask` the call, and then `reply` is written; in `fiorrudda_judge` some calls. No other answer is
/// written, except that `fiorrudda_feed` tells that no byte was taken.
pub const OUT_OF_MEMORY: u32 = 3;

/// The room for the answer is too short. Nothing is written but how many bytes the answer has.
pub const TOO_SHORT: u32 = 4;

/// A number stands for none of what there is.
pub const NO_SUCH_NUMBER: u32 = 5;

/// A text is not UTF-8, or gives no URL by itself.
pub const NOT_A_URL: u32 = 6;

/// A URL is neither http nor https.
pub const NOT_HTTP: u32 = 7;

/// A name is no token, or a value no header value.
pub const NOT_A_HEADER: u32 = 8;

/// A time is 2^48 seconds or more.
pub const TOO_LATE: u32 = 9;

/// What came is not what the fetch awaits. What handles hold is as it was.
pub const NOT_AWAITED: u32 = 10;

/// No request can be made of what is asked for; `fiorrudda_fetch` tells why.
pub const NO_REQUEST: u32 = 11;

/// A host is no domain as a URL has it, or a localhost name: it is never known.
pub const NOT_A_HOST: u32 = 12;
