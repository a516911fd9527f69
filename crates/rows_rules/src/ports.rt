// Rows of bad ports:
//
//     bad_port PORT         whether the port is bad; `-` is none
//     bad_ports             all bad ports
use policy_checks::bad_port;
use rows_shell::{Row, Shown};
use value_text::parse_digits;

// The answer to a row of these kinds, and whether the row is one.
pub(crate) fn answer(kind: &str, row: &Row, shown: &mut Shown) -> bool {
    match kind {
        "bad_port" => shown.add_yes_or_no(bad_port(port_of(row.text(0)))),
        "bad_ports" => bad_ports(shown),
        _ => return false,
    }
    true
}

// The port that a text writes, if it does.
fn port_of(text: &[u8]) -> Option<u16> {
    match parse_digits(text, 65_535) {
        Some(port) if port <= 65_535 => Some(port as u16),
        _ => None,
    }
}

// All bad ports, with a bar after each.
fn bad_ports(shown: &mut Shown) {
    for port in 0..=65_535u16 {
        if bad_port(Some(port)) {
            shown.add_number(u64::from(port));
            shown.add(b"|");
        }
    }
}
