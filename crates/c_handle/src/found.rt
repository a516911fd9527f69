// Violations, as a handle holds them.
use policy_csp::Violations;
use std::marker::Model;

/// The violations that a check found, in the order of the policies. Seen as their list.
#[derive(Drop)]
pub struct Found {
    pub violations: Violations,
}

impl Model for Found {
    ghost use Rattle.std.specs.Prelude.{List};
    ghost use Rattle.value_requests.specs.declared.policy.Violation.{Violation};

    ghost Value = { List Violation };

    ghost view = { λ found. found.violations };
}
