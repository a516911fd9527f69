// Rows of what the header list of a request or an answer says; OPS make the list:
//
//     nosniff OPS, essence OPS           whether types are taken as they are, and the essence
//     cors_check ORIGIN CREDENTIALS OPS  whether the CORS check passes
//     unsafe OPS                         the CORS-unsafe names of the list
//     policy OPS                         the referrer policy of the headers, `empty` where there is none
//     exposed CREDENTIALS OPS            the names that the headers expose
use policy_checks::passes_cors_check;
use policy_filter::exposed_names;
use policy_safelist::unsafe_names;
use rows_shell::{Failed, Row, Shown};
use std::alloc::Global;
use value_headers::HeaderList;
use value_lists::{essence_of, nosniff};
use value_requests::{ReferrerPolicy, policy_of_header};

// The answer to a row that takes no memory, and whether the row is one.
pub(crate) fn is_asked(kind: &str, row: &Row, list: &HeaderList, shown: &mut Shown) -> bool {
    match kind {
        "nosniff" => shown.add_yes_or_no(nosniff(list)),
        "cors_check" => {
            shown.add_yes_or_no(passes_cors_check(row.text(0), row.has(1, b"include"), list));
        }
        _ => return false,
    }
    true
}

// The answer to any other row of a list.
pub(crate) fn taken(
    alloc: Global,
    kind: &str,
    row: &Row,
    list: &HeaderList,
    shown: &mut Shown,
) -> Result<(), Failed> {
    match kind {
        "essence" => shown.add_text(essence_of(alloc, list)?),
        "unsafe" => shown.add_list(Some(unsafe_names(alloc, list)?)),
        "exposed" => {
            shown.add_list(Some(exposed_names(alloc, list, row.has(0, b"include"))?));
        }
        "policy" => show_policy(policy_of_header(alloc, list)?, shown),
        _ => return Err(Failed),
    }
    Ok(())
}

// A referrer policy, or `empty`.
fn show_policy(policy: ReferrerPolicy, shown: &mut Shown) {
    match policy {
        ReferrerPolicy::Empty => shown.add(b"empty"),
        policy => shown.add(policy.name().as_bytes()),
    }
}
