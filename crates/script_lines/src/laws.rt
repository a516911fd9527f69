// What is so of the lines of every event.
ghost use Rattle.script_lines.specs.Laws.{HaveLengths};

/// The printed lines of an event have exactly as many bytes as `event_length` says. The call does nothing.
pub fn law_event_length()
    ensures { HaveLengths }
{}
