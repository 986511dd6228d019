//! Laws over the definitions. They hold for all lists of processes, and no code runs.

ghost use Rattle.vfork_exec.specs.OtherLaws.{OthersRemain, EndedRemain};

/// What a call leaves of the other processes. Of each that lives, what is kept of it stays; its parent stays, or is none where that
/// has ended; and it stands as before, or may run. Who waits on a pipe goes on exactly where `wake` is called of that pipe. And who
/// has ended stays until its parent asks for it or ends.
pub fn others_law<P>()
    ensures others { OthersRemain P }
    ensures ended { EndedRemain P }
{}
