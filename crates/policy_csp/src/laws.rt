// Laws of policies: a directive without words is as one with `'none'`, and both dispositions are violated alike.
ghost use Rattle.std.specs.Prelude.{Bool, List};
ghost use Rattle.policy_csp.specs.Laws.{AreEmptyAsNone, AreViolatedAlike};
ghost use Rattle.policy_csp_text.specs.declared.policy.Policy.{Policy};
ghost use Rattle.value_origins.specs.declared.origin.Origin.{Origin};
ghost use Rattle.value_requests.specs.declared.request.Request.{Request};

/// A directive without words is violated by the same requests as one whose only word is `'none'`.
pub fn law_empty_as_none()
    ensures { (policies : List Policy) (request : Request) (document : Origin) (enforced : Bool)
        → AreEmptyAsNone policies request document enforced }
{}

/// A policy is violated by the same requests, and reported with the same number, directive and URL,
/// where it is enforced and where it is report-only.
pub fn law_violated_alike()
    ensures { (policies : List Policy) (request : Request) (document : Origin)
        → AreViolatedAlike policies request document }
{}
