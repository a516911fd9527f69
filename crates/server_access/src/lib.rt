// The theorem of both ends: a page reads the answer of a server with an allow table exactly where the table allows it.
#![tactic(auto)]

ghost use Rattle.server_access.specs.Access.{IsAccess, PlainHopsAreReadable, RowsAreRead};

use link_http1::law_one_request;
use link_traits::Link;
use server_heard::{law_replies_heard, law_requests_heard};

/// A law: the rows of each table that is read are rows of which `law_access` speaks. The call does nothing.
pub fn law_rows()
    ensures { RowsAreRead }
{}

/// A law: a server can read the head of a request whose method and header names are tokens, with at most 128 header
/// lines, with no control byte but the tab in its values, and with a target that is UTF-8, not empty and has no space
/// and no control byte. The call does nothing.
pub fn law_readable()
    ensures { PlainHopsAreReadable }
{}

/// A law: over a server that answers by an allow table, the first cors fetch of a document without policies to
/// another origin comes to a cors response with status 200 exactly where the table allows its method, its
/// CORS-unsafe request-header names and its credentials, and else to the error that the table tells. The call does
/// nothing.
pub fn law_access<L: Link>()
    ensures { IsAccess L.State }
{
    law_one_request();
    law_requests_heard();
    law_replies_heard();
}
