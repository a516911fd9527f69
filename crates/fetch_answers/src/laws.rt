// Laws: what is done with a head is what is done with what a document may learn of it.
ghost use Rattle.fetch_answers.specs.Laws as laws;

/// A law: the head of an answer that is none to a preflight is refused, or not, as what a document may
/// learn of it is (Fetch, "HTTP fetch"). The call does nothing.
pub fn law_refusal()
    ensures { laws.KeepsRefusal }
{}

/// A law: a head that is not refused leads where what a document may learn of it leads (Fetch,
/// "HTTP-redirect fetch"). The call does nothing.
pub fn law_redirection()
    ensures { laws.KeepsRedirection }
{}

/// A law: where it leads to a URL, the request there is the same by both. The call does nothing.
pub fn law_redirected()
    ensures { laws.KeepsRedirected }
{}

/// A law: a head that a fetch ends with ends it as what a document may learn of it does (Fetch, the end of
/// "main fetch"), where the redirect mode is follow or the destination that of a `fetch`. The call does
/// nothing.
pub fn law_ending()
    ensures { laws.KeepsEnding }
{}
