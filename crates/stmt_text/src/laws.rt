//! What holds of printed lines. Each function's contract is a law, and its body is empty.

ghost use Rattle.stmt_text.specs.Laws.{AnswersWhatIsSaid, WhatIsPrintableIsSaid, WhatIsSaidIsPrintable};

/// Of a line that is no longer than a line may be and says something, what it says is the answer. So `read_line`
/// answers of a printed line what that was printed of, or want of memory.
pub fn a_line_answers_what_it_says()
    ensures { AnswersWhatIsSaid }
{}

/// What a line says can be printed, and what can be printed is said by the line that is printed. So `print` takes
/// exactly what lines say.
pub fn what_lines_say_can_be_printed()
    ensures printable { WhatIsSaidIsPrintable }
    ensures said { WhatIsPrintableIsSaid }
{}
