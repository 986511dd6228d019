//! Laws of the command `trace`. No code runs.
ghost use Rattle.command_laws.specs.TraceLaws.{PidsAreSpelled, TracesAreRuns, TracesTellNotes};

/// A trace is the run of its manifest: it asks for the same files, and ends with the same status and console. Its report has the texts of
/// a trace of the world's notes.
pub fn trace_law()
    ensures spelled { PidsAreSpelled }
    ensures run { TracesAreRuns }
    ensures report { TracesTellNotes }
{}
