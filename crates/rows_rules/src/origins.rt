// Rows of origins and of referrers:
//
//     origin URL                 its serialization
//     trustworthy URL            whether it is potentially trustworthy
//     same_origin URL URL        whether they have the same origin
//     same_host URL URL, same_site URL URL
//     referrer POLICY SOURCE TARGET     the referrer that the policy tells the target of the source
ghost use Rattle.std.specs.Prelude.{◌≡◌};
ghost use Rattle.value_requests.specs.Requests.{is_policy};

use crate::loads::add_short;
use policy_checks::determine;
use rows_shell::{Failed, Held, Row, Shown, origin_written, policy_named, url_written};
use std::alloc::Global;
use url::Url;
use value_origins::{
    Origin, is_host_of, is_http_url, is_origin_of, is_trustworthy, is_trustworthy_url, origin_of,
    same_origin, same_site, serialize,
};
use value_requests::ReferrerPolicy;

// The answer to a row of these kinds, and whether the row is one.
pub(crate) fn answer(
    alloc: Global,
    kind: &str,
    row: &Row,
    shown: &mut Shown,
) -> Result<bool, Failed> {
    match kind {
        "origin" => serialized(alloc, row.text(0), shown)?,
        "trustworthy" => trustworthy(alloc, row.text(0), shown)?,
        "same_origin" | "same_host" | "same_site" => compared(alloc, kind, row, shown)?,
        "referrer" => determined(alloc, row, shown)?,
        _ => return Ok(false),
    }
    Ok(true)
}

// The serialization of the origin of a URL, where it has one.
fn serialized(alloc: Global, text: &[u8], shown: &mut Shown) -> Result<(), Failed> {
    let url = url_written(alloc, text)?;
    match &origin_of(alloc, &url)? {
        Some(origin) => shown.add_quoted(serialize(alloc, origin)?.as_slice()),
        None => shown.add(b"none"),
    }
    Ok(())
}

// Whether a URL is trustworthy; its origin answers the same.
fn trustworthy(alloc: Global, text: &[u8], shown: &mut Shown) -> Result<(), Failed> {
    let url = url_written(alloc, text)?;
    let answer = is_trustworthy_url(&url);
    match &origin_of(alloc, &url)? {
        Some(origin) => show_both(answer, is_trustworthy(origin), shown),
        None => shown.add_yes_or_no(answer),
    }
    Ok(())
}

// An answer that is given twice; where the other is not the same, DIFFERS.
fn show_both(answer: bool, other: bool, shown: &mut Shown) {
    if answer == other {
        shown.add_yes_or_no(answer);
    } else {
        shown.add(b"DIFFERS");
    }
}

// The origins of two URLs, compared as the row says.
fn compared(alloc: Global, kind: &str, row: &Row, shown: &mut Shown) -> Result<(), Failed> {
    let first = Held {
        value: origin_written(alloc, row.text(0))?,
    };
    let url = Held {
        value: url_written(alloc, row.text(1))?,
    };
    let second = origin_written(alloc, row.text(1))?;
    show_compared(kind, &first.value, &second, &url.value, shown);
    Ok(())
}

// The same of an origin, another, and the URL of the other; where its origin answers otherwise than the URL, DIFFERS.
fn show_compared(kind: &str, first: &Origin, second: &Origin, url: &Url, shown: &mut Shown) {
    match kind {
        "same_site" => shown.add_yes_or_no(same_site(first, second)),
        "same_host" => shown.add_yes_or_no(is_host_of(first, url)),
        _ => {
            let answer = is_origin_of(first, url);
            show_both(answer, same_origin(first, second), shown);
        }
    }
}

// Whether there is a policy.
fn is_given(policy: ReferrerPolicy) -> bool
    ensures { result ≡ is_policy policy }
{
    !matches!(policy, ReferrerPolicy::Empty)
}

// The referrer that the row's policy tells its target of its source.
fn determined(alloc: Global, row: &Row, shown: &mut Shown) -> Result<(), Failed> {
    let policy = policy_named(row.text(0))?;
    let source = Held {
        value: url_written(alloc, row.text(1))?,
    };
    let target = Held {
        value: url_written(alloc, row.text(2))?,
    };
    if !is_given(policy) || !is_http_url(&source.value) || !is_http_url(&target.value) {
        return Err(Failed);
    }
    show_referrer(
        determine(alloc, policy, &source.value, &target.value)?,
        shown,
    );
    Ok(())
}

// A referrer, or none.
fn show_referrer(referrer: Option<Url>, shown: &mut Shown) {
    match referrer {
        Some(url) => add_short(url.as_str().as_bytes(), shown),
        None => shown.add(b"none"),
    }
}
