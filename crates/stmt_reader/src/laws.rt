//! What holds of lines. Each function's contract is a law, and its body is empty.

ghost use Rattle.stmt_reader.specs.Laws.{HasAnAnswer, HasOneAnswer, HasOnePlace, SaysItsSession, SaysOneThing, SaysOrFails};

/// A line says one thing at most, and with it its session.
pub fn each_line_says_one_thing()
    ensures thing { SaysOneThing }
    ensures session { SaysItsSession }
{}

/// Each line has exactly one answer, want of memory left out: it says a session and a statement, or is too long, or
/// is wrong at exactly one place.
pub fn each_line_has_one_answer()
    ensures answer { HasAnAnswer }
    ensures only { HasOneAnswer }
    ensures fault { SaysOrFails }
    ensures place { HasOnePlace }
{}
