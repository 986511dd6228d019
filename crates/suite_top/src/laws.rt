//! Laws over every call of `suite`, by what its clause says. No code runs. Those of one command stand
//! with the command.
ghost use Rattle.suite_top.specs.StatusLaws.{AnswersAreWhole, Completes, TextsAreApart, RefutedIsOfReplay, ReadsFail, WritesFail, SinksFail, MemoryIsTold, MemoryIsOneLine, ShortagesStop, UsageIsExact, StackIsSpelled, NoStatusIsAlways};
ghost use Rattle.suite_top.specs.HostLaws.{NamesAreAPrefix, NothingIsAsked, OthersChangeNoFile, StoresAreWhole};

/// When each status comes, and what was written then; and none but Memory comes always.
pub fn status_law()
    ensures answers { AnswersAreWhole }
    ensures complete { Completes }
    ensures texts { TextsAreApart }
    ensures refuted { RefutedIsOfReplay }
    ensures usage { UsageIsExact }
    ensures stack { StackIsSpelled }
    ensures host_read { ReadsFail }
    ensures host_write { WritesFail }
    ensures sink_write { SinksFail }
    ensures memory { MemoryIsTold }
    ensures one_line { MemoryIsOneLine }
    ensures shortage { ShortagesStop }
    ensures always { NoStatusIsAlways }
{}

/// What the host was asked, and which files changed.
pub fn host_law()
    ensures names { NamesAreAPrefix }
    ensures untouched { NothingIsAsked }
    ensures others { OthersChangeNoFile }
    ensures whole { StoresAreWhole }
{}
