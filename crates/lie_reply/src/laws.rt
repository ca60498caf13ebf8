//! Laws of replies.
ghost use Rattle.lie_reply.specs.Laws.{EqualTextsEqualForms, RepliesTellWords};

/// In a field within the limits, two forms with the same text are equal.
pub fn equal_texts_equal_forms()
    ensures { EqualTextsEqualForms }
{}

/// In a field within the limits, two words with the same reply to `form` are joined.
pub fn replies_tell_words()
    ensures { RepliesTellWords }
{}
