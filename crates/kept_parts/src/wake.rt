//! Those go on that wait on a pipe which changed.

ghost use Rattle.std.specs.Prelude.{◌≡◌};
ghost use Rattle.machine_world.specs.Event.{awake};
ghost use Rattle.kept_parts.specs.Awake.{awake_in};
ghost use Rattle.kept_parts.specs.Stands.{About, world_of};

use crate::kept::KeptParts;

impl KeptParts {
    /// Those go on that wait on a pipe of which the bytes changed or an end closed, and no pipe is marked any more.
    pub fn wake_changed(&mut self)
        ensures kept { self.new ≡ awake_in self.old }
        ensures world { (a : About) → world_of a self.new ≡ awake (world_of a self.old) }
    {
        while let Some(pipe) = self.files.next_changed() {
            self.procs.wake(pipe);
        }
    }
}
