//! The law, which a call hands to its caller's proof. The call does nothing.
ghost use Rattle.search_bounds.specs.Laws.{SearchesAreBounded};

/// A search that never adds the empty clause has fewer conflicts than are enough for its variables.
pub fn searches_are_bounded()
    ensures { SearchesAreBounded }
{}
