//! Laws over the definitions. No code runs.

ghost use Rattle.core_world.specs.Laws.{FallsHaveCores, SegmentsFit};

/// Each process that falls by a signal has a core in the world before that, and the segments of a space have at most as many bytes
/// as memory.
pub fn cores_law()
    ensures falls { FallsHaveCores }
    ensures fit { SegmentsFit }
{}
