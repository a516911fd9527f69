// The words that cspreport accepts.
ghost use Rattle.std.specs.Prelude.{◌≡◌};
ghost use Rattle.program_shell.specs.Words.{texts};
ghost use Rattle.program_cspreport.specs.Words as spec;

// Whether the words are `play` alone.
pub(crate) fn are_accepted(words: &[String]) -> bool
    ensures { result ≡ spec.are_accepted (texts words.now) }
{
    match words {
        [word] => word.as_str() == "play",
        _ => false,
    }
}
