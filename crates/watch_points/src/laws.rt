//! Laws over the definitions. They hold for all accesses and hits, and no code runs.

ghost use Rattle.watch_points.specs.Laws.{AreFirst, FoundJoins, HitsJoin, NoneAdds, NoneWithoutSpans};

/// The hits of accesses, one list behind the other; where nothing is watched nothing hits.
pub fn hits_law()
    ensures joined { HitsJoin }
    ensures none { NoneWithoutSpans }
{}

/// What is kept of hits, one list behind the other, and of all of them.
pub fn found_law()
    ensures joined { FoundJoins }
    ensures none { NoneAdds }
    ensures first { AreFirst }
{}
