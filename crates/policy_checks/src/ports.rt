// Bad ports, to which nothing is sent (Fetch, section 2.9 "port blocking").
ghost use Rattle.std.specs.Prelude.{◌≡◌};
ghost use Rattle.policy_checks.specs.Ports as spec;

// The bad ports.
const BAD_PORTS: [u16; 83] = [
    0, 1, 7, 9, 11, 13, 15, 17, 19, 20, 21, 22, 23, 25, 37, 42, 43, 53, 69, 77, 79, 87, 95, 101,
    102, 103, 104, 109, 110, 111, 113, 115, 117, 119, 123, 135, 137, 139, 143, 161, 179, 389, 427,
    465, 512, 513, 514, 515, 526, 530, 531, 532, 540, 548, 554, 556, 563, 587, 601, 636, 989, 990,
    993, 995, 1719, 1720, 1723, 2049, 3659, 4045, 4190, 5060, 5061, 6000, 6566, 6665, 6666, 6667,
    6668, 6669, 6679, 6697, 10080,
];

/// Whether the port of an http or https URL is a bad port, to which nothing is sent (Fetch, section
/// 2.9, "bad port"). A URL has no port where it is the default one of its scheme, which is not bad. It
/// takes no memory.
pub fn bad_port(port: Option<u16>) -> bool
    ensures { result ≡ spec.is_bad_port port }
{
    match port {
        None => false,
        Some(port) => BAD_PORTS.contains(&port),
    }
}
