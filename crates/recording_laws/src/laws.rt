//! A law over the definitions. It holds for all worlds, and no code runs.

ghost use Rattle.recording_laws.specs.Laws.{BootsRecord, EventsRecord, TurnsRecord, RunsRecord, RecordingsTell};

/// What the notes tell of each call's space, and what is recorded of one space, are right at boot, and every event, turn and run keeps
/// them so; and then the notes and the recording tell that space's stay: its program, its events, and its calls with what their
/// mappings brought.
pub fn items_law()
    ensures boots { BootsRecord }
    ensures events { EventsRecord }
    ensures turns { TurnsRecord }
    ensures runs { RunsRecord }
    ensures tells { RecordingsTell }
{}
