// The law of scripted servers: the bytes of a request are answered by its method and its target.
ghost use Rattle.play_seats.specs.Laws.{AnswersByParts};

/// The answer to a request whose method and target have no space is the one that a scripted server
/// gives to this method and this target: cutting the bytes of the request gives the two (RFC 9112,
/// section 3). A token has no space, nor has the target of an http or https URL.
pub fn law_answers_by_parts()
    ensures { AnswersByParts }
{}
