//! The law of plain words, for readers and for the proofs of callers.

ghost use Rattle.vss_words.specs.Plain.{PlainWordsAreTaken};

/// Names and numbers in their order, none of which begins with `-`, ask for the task that they follow. A call does nothing;
/// it gives its caller's proof this law.
pub fn plain_words_are_taken()
    ensures { PlainWordsAreTaken }
{}
