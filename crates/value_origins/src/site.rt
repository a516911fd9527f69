// Whether two origins are of one site, schemes aside (HTML, section 7.1.1 "schemelessly same site").
ghost use Rattle.std.specs.Prelude.{◌≡◌};
ghost use Rattle.value_origins.specs.Sites.{same_site as is_same_site};
ghost use Rattle.value_origins.specs.Names as names;

use crate::names::{last_two_labels, without_last_dot};
use crate::origin::{HostKind, Origin};

// The site of a domain.
fn site_of_name(name: &[u8]) -> &[u8]
    ensures { result.now ≡ names.last_two_labels (names.without_last_dot name.now) }
{
    last_two_labels(without_last_dot(name))
}

/// Whether two origins have equal sites, whatever their schemes and ports. The site is the last two
/// labels of a domain without one last dot, or the IP address: there is no list of public suffixes
/// (HTML, section 7.1.1, "schemelessly same site"). It takes no memory.
pub fn same_site(a: &Origin, b: &Origin) -> bool
    ensures { result ≡ is_same_site a.now b.now }
{
    match (&a.host, &b.host) {
        (HostKind::Domain(a), HostKind::Domain(b)) => site_of_name(a.as_slice())
            == site_of_name(b.as_slice()),
        (HostKind::V4(a), HostKind::V4(b)) => a == b,
        (HostKind::V6(a), HostKind::V6(b)) => a == b,
        _ => false,
    }
}
