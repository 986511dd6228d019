//! Laws over every call of the commands that run nothing. No code runs.
ghost use Rattle.file_commands.specs.Sizes.{HeaderHasSizes};
ghost use Rattle.command_laws.specs.ConvertLaws.{ConvertChangesOneFile, ConvertIsDone, ConvertIsRefused, ConvertCompletes};
ghost use Rattle.command_laws.specs.CheckLaws.{CheckAsksOneLoad, CheckIsDone, CheckIsRefused, LinesBeginWithTails, CheckCompletes};
ghost use Rattle.command_laws.specs.RomfsLaws.{RomfsChangesOneFile, RomfsIsDone, RomfsIsRefused, RomfsCompletes};
ghost use Rattle.command_laws.specs.UnromfsLaws.{UnromfsAsksOneLoad, UnromfsIsDone, UnromfsIsRefused, UnromfsCompletes};
ghost use Rattle.command_laws.specs.ReplayLaws.{ReplayAsksItsFiles, ReplayIsDone, ReplayIsRefuted, ReplayIsRefused, ReplayCompletes};
ghost use Rattle.command_laws.specs.ListLaws.{ListAsksOneLoad, ListIsDone, ListIsRefused, ListCompletes};

/// Which file changes, when each answer comes, and whose numbers stand in the line.
pub fn convert_law()
    ensures files { ConvertChangesOneFile }
    ensures done { ConvertIsDone }
    ensures refused { ConvertIsRefused }
    ensures complete { ConvertCompletes }
    ensures header { HeaderHasSizes }
{}

/// When each answer comes, and that its ELF file alone is asked for.
pub fn check_law()
    ensures one_load { CheckAsksOneLoad }
    ensures done { CheckIsDone }
    ensures refused { CheckIsRefused }
    ensures tails { LinesBeginWithTails }
    ensures complete { CheckCompletes }
{}

/// When each answer comes, and that its flat file alone is asked for.
pub fn list_law()
    ensures one_load { ListAsksOneLoad }
    ensures done { ListIsDone }
    ensures refused { ListIsRefused }
    ensures complete { ListCompletes }
{}

/// When each answer comes, and that its image alone is asked for.
pub fn unromfs_law()
    ensures one_load { UnromfsAsksOneLoad }
    ensures done { UnromfsIsDone }
    ensures refused { UnromfsIsRefused }
    ensures complete { UnromfsCompletes }
{}

/// When each answer comes and what it says of the program and the items, and that these two files alone are asked for.
pub fn replay_law()
    ensures loads { ReplayAsksItsFiles }
    ensures done { ReplayIsDone }
    ensures refuted { ReplayIsRefuted }
    ensures refused { ReplayIsRefused }
    ensures complete { ReplayCompletes }
{}

/// Which file changes, and when each answer comes.
pub fn romfs_law()
    ensures files { RomfsChangesOneFile }
    ensures done { RomfsIsDone }
    ensures refused { RomfsIsRefused }
    ensures complete { RomfsCompletes }
{}
