// The law of replies: the bytes of a request have one.
ghost use Rattle.server_tables.specs.Served.{HasOneReply};

use link_http1::law_one_request;

/// A law: one reply is that to the bytes. The call does nothing.
pub fn law_one_reply()
    ensures { HasOneReply }
{
    law_one_request();
}
