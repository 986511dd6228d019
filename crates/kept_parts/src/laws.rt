//! Laws over the definitions. No code runs.

ghost use Rattle.kept_parts.specs.FreeRuns.{RegionsLeaveFreeRuns};

/// The free runs of the regions are those of the world that the parts stand for.
pub fn free_runs_law()
    ensures { RegionsLeaveFreeRuns }
{}
