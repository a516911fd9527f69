// The lines of the input, each answered by a line of the output.
use crate::failed::Failed;
use crate::shown::Shown;
use std::alloc::Global;
use std::io;

/// What a program of worked lines does with each of them.
pub trait Lines {
    /// Shows what a line comes to, in a text that is empty before.
    fn answer(&mut self, alloc: Global, line: &str, shown: &mut Shown) -> Result<(), Failed>;
}

/// Whether a line is printed as it is: a title, which begins with `#`, or an empty line.
pub fn is_title(line: &str) -> bool {
    line.is_empty() || line.starts_with('#')
}

/// Prints a text, unless it has failed.
pub fn print_text<R: Print + AllocGlobal>(rt: &R, shown: Shown) -> Result<(), Failed> {
    let text = shown.into_bytes()?;
    let text = String::from_utf8_lossy(rt.alloc(), text.as_slice())?;
    print!(rt; "{text}")?;
    Ok(())
}

// Prints what a line comes to.
fn play_line<R: Print + AllocGlobal, T: Lines>(
    rt: &R,
    lines: &mut T,
    line: &str,
) -> Result<(), Failed> {
    let mut shown = Shown::new(rt.alloc());
    if is_title(line) {
        shown.add(line.as_bytes());
    } else {
        lines.answer(rt.alloc(), line, &mut shown)?;
    }
    shown.add(b"\n");
    print_text(rt, shown)
}

/// Reads the lines of the input, and prints for each what it comes to: a title itself, and another line its answer. It
/// ends at the first that fails.
pub fn play<R: Input + Print + AllocGlobal, T: Lines>(rt: &R, lines: &mut T) -> Result<(), Failed> {
    let text = io::read_to_string(rt.alloc(), rt.reader())?;
    for line in text.lines() {
        play_line(rt, lines, line)?;
    }
    Ok(())
}
