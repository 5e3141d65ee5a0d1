//! What stays of the words as they were.

ghost use Rattle.lat_words.specs.Laws.{NamesStay};

/// Each text of a name is one of the same name where escapes of every byte are taken.
pub fn names_stay()
    ensures { NamesStay }
{}
