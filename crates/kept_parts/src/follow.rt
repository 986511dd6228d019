//! What is open once a call gave its bytes.

ghost use Rattle.std.specs.Prelude.{◌≡◌, IsSome, IfOk, OnErr, Some};
ghost use Rattle.file_calls.specs.Calls.{after};
ghost use Rattle.file_calls.specs.Outcomes.{CanTake, HasEnds};
ghost use Rattle.fd_tables.specs.declared.pipe_view.Ends.{Ends};
ghost use Rattle.fd_tables.specs.Files.{two_free};
ghost use Rattle.fd_tables.specs.Changes.{piped};

use fd_tables::Files;
use file_calls::Then;
use std::alloc::AllocError;

/// Makes a pipe, with its ends at the two lowest descriptors that are free.
fn make_pipe(files: &mut Files, table: u32, cloexec: bool) -> Result<(), AllocError>
    requires { IsSome (two_free files.old.open_files table) }
    ensures made { IfOk result (λ _. (ends : Ends) → two_free files.old.open_files table ≡ Some ends → files.new.open_files ≡ piped files.old.open_files table ends cloexec) }
    ensures same { OnErr result (files.new.open_files ≡ files.old.open_files) }
{
    match files.pipe(table, cloexec) {
        Ok(_) => Ok(()),
        Err(_) => Err(AllocError),
    }
}

/// What changes where the bytes are given. Out of memory nothing does.
pub fn follow(files: &mut Files, table: u32, next: Then) -> Result<(), AllocError>
    requires take { CanTake files.old.open_files next }
    requires ends { HasEnds files.old.open_files table next }
    ensures after { IfOk result (λ _. files.new.open_files ≡ after next table files.old.open_files) }
    ensures same { OnErr result (files.new.open_files ≡ files.old.open_files) }
{
    match next {
        Then::Nothing => {}
        Then::Move { fd, at } => files.move_to(table, fd, at),
        Then::Take(n) => files.take_stdin(n),
        Then::TakePipe { id, n } => files.pipe_take(id, n),
        Then::MakePipe { cloexec, .. } => return make_pipe(files, table, cloexec),
    }
    Ok(())
}
