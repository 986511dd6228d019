//! What is asked of a run of programs.
ghost use Rattle.std.specs.Prelude.{◌≡◌};
ghost use Rattle.suite_top.specs.KeptItems.{kept_in};
ghost use Rattle.suite_top.specs.Telling.{mode_of, placement_of, kept_of, watch_of, telling_value};

use file_commands::{KeptItems, RunOptions, TraceOptions};
use page_runs::Kind;
use region_watch::Mode;
use watch_points::PointKind;

/// What is asked of a run of programs, by its command.
#[derive(Clone, Copy)]
pub enum Telling<'a> {
    /// `run`: its report, and what its options say.
    Report(RunOptions<'a>),
    /// `trace`: its report with the system calls as a trace.
    Trace(TraceOptions),
    /// `demo`: the line of a demo of so many programs, and no report where all of them ended.
    Demo { programs: u32 },
}

impl<'a> Telling<'a> {
    /// What becomes of the run at its first stray access.
    pub fn mode(self) -> Mode
        ensures { result ≡ mode_of (telling_value self.entry) }
    {
        match self {
            Telling::Report(options) => options.mode,
            Telling::Trace(_) | Telling::Demo { .. } => Mode::Halt,
        }
    }

    /// Where its programs are placed.
    pub fn kind(self) -> Kind
        ensures { result ≡ placement_of (telling_value self.entry) }
    {
        match self {
            Telling::Report(options) => options.kind,
            Telling::Trace(options) => options.kind,
            Telling::Demo { .. } => Kind::First,
        }
    }

    /// The items that are kept of it, if any are.
    pub fn kept(self) -> Option<KeptItems<'a>>
        ensures { kept_in result ≡ kept_of (telling_value self.entry) }
    {
        match self {
            Telling::Report(options) => options.kept,
            Telling::Trace(_) | Telling::Demo { .. } => None,
        }
    }

    /// Which hits are told, if any are.
    pub fn watch(self) -> Option<PointKind>
        ensures { result ≡ watch_of (telling_value self.entry) }
    {
        match self {
            Telling::Report(options) => options.watch,
            Telling::Trace(_) | Telling::Demo { .. } => None,
        }
    }
}
