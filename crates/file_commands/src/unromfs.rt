//! The command `unromfs IMG`.
ghost use Rattle.file_commands.specs.Ending.{OrMemory};
ghost use Rattle.file_commands.specs.Observed.{observed};
ghost use Rattle.file_commands.specs.Answer.{ending_of};
ghost use Rattle.file_commands.specs.Unromfs.{unmade_ending, unromfs_outcome};
ghost use Rattle.file_commands.specs.HostCourse.{PerformsCommand};

use crate::answer::Answer;
use crate::file_load::load_file;
use crate::status::Status;
use crate::texts::images::{image_listing, refused_rom};
use host_io::Host;
use romfs_image::Rom;
use std::alloc::{AllocError, Global};

/// Loads the image and lists its nodes.
pub fn unromfs_file<H: Host>(alloc: Global, image: &str, host: &mut H) -> Result<Answer, AllocError>
    ensures { PerformsCommand (observed H.told H.faults host.old) (observed H.told H.faults host.new) (unromfs_outcome image.now) (ending_of result) }
{
    match load_file(alloc, image, host) {
        Ok(bytes) => unromfs_bytes(alloc, &bytes),
        Err(ended) => ended.answer(),
    }
}

fn unromfs_bytes(alloc: Global, bytes: &[u8]) -> Result<Answer, AllocError>
    ensures { OrMemory (unmade_ending bytes.now) (ending_of result) }
{
    match Rom::read(alloc, bytes) {
        Ok(rom) => {
            let text = image_listing(alloc, rom.nodes())?;
            Ok(Answer::done(alloc, text))
        }
        Err(fault) => Answer::early(alloc, Status::Refused, refused_rom(alloc, fault)),
    }
}
