//! Laws over the definitions. No code runs.

ghost use Rattle.syscall_layer.specs.CallEvents.{CallsAreEvents};

/// The call of a run that goes on, of a process that stands at one, is the next event of the run.
pub fn call_event_law()
    ensures { CallsAreEvents }
{}
