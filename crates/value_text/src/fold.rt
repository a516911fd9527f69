// Texts that are equal, ASCII case aside.
ghost use Rattle.std.specs.Prelude.{◌≡◌};
ghost use Rattle.std.specs.Str.{str_eq_ignore_ascii_case};

/// Whether two texts are equal, ASCII case aside. It takes no memory.
pub fn eq_fold(a: &[u8], b: &[u8]) -> bool
    ensures { result ≡ str_eq_ignore_ascii_case a.now b.now }
{
    // most names come as they are looked for, and are compared faster as they are
    a == b || a.eq_ignore_ascii_case(b)
}
