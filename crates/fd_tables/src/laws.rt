//! Laws over the definitions. They hold for all tables and nodes, and no code runs.

ghost use Rattle.fd_tables.specs.CountLaws.{RemainsWhileShared, RemainsWhileOpen, UnnamedWhileOpen, EndsRemainWhileOpen, BeginsCounted, MarksAreExact, CallsKeepCounts};

/// An open file counts the descriptors that share it, a node the open files that hold it, and an end of a pipe is open while one open
/// file is it. So an open file goes exactly when its last descriptor closes, a file without a name at its last close, and an end
/// of a pipe closes with its last descriptor. A close, and
/// bytes that are taken or put, mark exactly the pipe that shows something else than before.
pub fn counts_law()
    ensures shared { RemainsWhileShared }
    ensures held { RemainsWhileOpen }
    ensures unnamed { UnnamedWhileOpen }
    ensures ends { EndsRemainWhileOpen }
    ensures marks { MarksAreExact }
    ensures begins { BeginsCounted }
    ensures keeps { CallsKeepCounts }
{}
