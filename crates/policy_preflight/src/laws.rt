// Laws of the CORS check and of the verdict on the answer to a preflight.
ghost use Rattle.policy_preflight.specs.Laws.{ChecksAreOfViews, CredentialsNeverByWildcard, PassesAreLessons};
ghost use Rattle.policy_preflight.specs.Laws.{StarPassesNoOther, VerdictsAreOfViews};

// With credentials the CORS check never passes where Access-Control-Allow-Origin is `*`, for a text other than `*`.
fn law_star_passes_no_other()
    ensures { StarPassesNoOther }
{}

/// A law: with credentials the CORS check of a request never passes where Access-Control-Allow-Origin is `*`.
pub fn law_credentials_never_by_wildcard()
    ensures { CredentialsNeverByWildcard }
{
    law_star_passes_no_other();
}

/// A law: the verdict on the head that answers a preflight is that on what a document may learn of it.
pub fn law_verdict_of_view()
    ensures { VerdictsAreOfViews }
{}

/// A law: the CORS check of the head that answers a preflight is that of what a document may learn of it.
pub fn law_check_of_view()
    ensures { ChecksAreOfViews }
{}

/// A law: what an answer that passes teaches is for at most 7,200 seconds, and its methods and names are
/// tokens, for every valid request.
pub fn law_passes_are_lessons()
    ensures { PassesAreLessons }
{}
