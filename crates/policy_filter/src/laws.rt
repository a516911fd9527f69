// Laws of permitted views: a rule of a fetch that looks at a head comes to the same on its view.
ghost use Rattle.policy_filter.specs.Laws as laws;

/// A law: a permitted view is its own permitted view. The call does nothing.
pub fn law_own_view()
    ensures { laws.IsOwnView }
{}

/// A law: a permitted view has the values of Strict-Transport-Security of its head, so known hosts are
/// noted alike (RFC 6797, section 8.1). The call does nothing.
pub fn law_known_host()
    ensures { laws.KeepsKnownHost }
{}

/// A law: the CORS check says of a head what it says of its permitted view, where it is asked (Fetch,
/// "CORS check"): of the answer to a preflight, and under tainting cors. The call does nothing.
pub fn law_cors_check()
    ensures { laws.KeepsCorsCheck }
{}

/// A law: the cross-origin resource policy check says of a head what it says of its permitted view,
/// where it is asked (Fetch, "cross-origin resource policy check"): under tainting opaque. The call
/// does nothing.
pub fn law_resource_policy()
    ensures { laws.KeepsResourcePolicy }
{}

/// A law: what is done with an allowed head as a redirect is what is done with its permitted view
/// (Fetch, "HTTP fetch"): whether it is an error, an opaque-redirect response, or followed. The call
/// does nothing.
pub fn law_redirect()
    ensures { laws.KeepsRedirect }
{}

/// A law: an allowed head that is a redirect that is followed, and its permitted view, have the same
/// status and the same values of Location and Referrer-Policy, on which following it rests (Fetch,
/// "HTTP-redirect fetch"). The call does nothing.
pub fn law_target()
    ensures { laws.KeepsTarget }
{}

/// A law: a head that is handed over as a response, and its permitted view, have the same filtered
/// response (Fetch, section 2.2.6). The call does nothing.
pub fn law_filtered()
    ensures { laws.KeepsFiltered }
{}

/// A law: a head that is handed over as a response, and its permitted view, are blocked alike due to
/// their MIME type and due to nosniff (Fetch, "should response to request be blocked due to its MIME
/// type" and ".. due to nosniff"), where the redirect mode is follow or the destination that of a
/// `fetch`. The call does nothing.
pub fn law_blocking()
    ensures { laws.KeepsBlocking }
{}

/// A law: a head that is handed over as a response whose body a document may read, and its permitted
/// view, have the same status and the same values of Content-Encoding, on which reading it rests. The
/// call does nothing.
pub fn law_body()
    ensures { laws.KeepsBody }
{}
