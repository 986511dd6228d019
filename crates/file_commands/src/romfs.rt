//! The command `romfs MANIFEST IMG`.
ghost use Rattle.std.specs.Prelude.{◌≡◌, length, map};
ghost use Rattle.std.specs.List.{AllByRecursion};
ghost use Rattle.mem_files.specs.Trees.{IsTree};
ghost use Rattle.rom_tree.specs.Names.{CanBeWritten};
ghost use Rattle.rom_tree.specs.Nodes.{tree_nodes};
ghost use Rattle.manifest_text.specs.Values.{item_value, vec_texts};
ghost use Rattle.manifest_text.specs.Laws.{IsItem, HasClearPath};
ghost use Rattle.manifest_text.specs.Manifest.{tree_manifest_of};
ghost use Rattle.file_commands.specs.Observed.{observed};
ghost use Rattle.file_commands.specs.Answer.{ending_of};
ghost use Rattle.file_commands.specs.Items.{files_limit, with_items};
ghost use Rattle.file_commands.specs.Romfs.{imaged_outcome, filed_outcome, lined_outcome, romfs_outcome};
ghost use Rattle.file_commands.specs.HostCourse.{Performs, PerformsCommand};

use crate::answer::Answer;
use crate::file_load::load_limited;
use crate::items::load_items;
use crate::manifests::{MANIFEST_LIMIT, refuse_line};
use crate::status::Status;
use crate::store::store_file;
use crate::texts;
use crate::texts::images::image_line;
use crate::texts::refusals::refused_manifest;
use host_io::Host;
use manifest_text::{Item, ManifestRefusal};
use mem_files::Tree;
use rom_tree::tree_nodes;
use romfs_image::{MakeFault, make};
use run_setup::bring;
use std::alloc::{AllocError, Global};

/// Loads the manifest and the files of its lines, and stores the image of their tree.
pub fn romfs_file<H: Host>(
    alloc: Global,
    manifest: &str,
    image: &str,
    host: &mut H,
) -> Result<Answer, AllocError>
    ensures { PerformsCommand (observed H.told H.faults host.old) (observed H.told H.faults host.new) (romfs_outcome manifest.now image.now) (ending_of result) }
{
    match load_limited(alloc, manifest, MANIFEST_LIMIT, None, host) {
        Ok(bytes) => romfs_manifest(alloc, &bytes, image, host),
        Err(ended) => ended.answer(),
    }
}

/// Goes on with a manifest that was loaded.
fn romfs_manifest<H: Host>(
    alloc: Global,
    bytes: &[u8],
    image: &str,
    host: &mut H,
) -> Result<Answer, AllocError>
    ensures { PerformsCommand (observed H.told H.faults host.old) (observed H.told H.faults host.new) (lined_outcome image.now (tree_manifest_of bytes.now)) (ending_of result) }
{
    match manifest_text::read_tree(alloc, bytes) {
        Ok(manifest) => romfs_items(alloc, &manifest.items, image, host),
        Err(ManifestRefusal::At { line, fault }) => {
            let text = refused_manifest(alloc, line, fault);
            Answer::early(alloc, Status::Refused, text)
        }
        Err(ManifestRefusal::Memory) => Err(AllocError),
    }
}

/// Loads the files of all lines, and goes on with them.
fn romfs_items<H: Host>(
    alloc: Global,
    items: &[Item],
    image: &str,
    host: &mut H,
) -> Result<Answer, AllocError>
    requires items { AllByRecursion IsItem (map item_value items.now) }
    requires paths { AllByRecursion HasClearPath (map item_value items.now) }
    ensures { PerformsCommand (observed H.told H.faults host.old) (observed H.told H.faults host.new) (with_items files_limit (map item_value items.now) (filed_outcome image.now (map item_value items.now))) (ending_of result) }
{
    match load_items(alloc, items, host) {
        Ok(files) => romfs_files(alloc, items, files, image, host),
        Err(ended) => ended.answer(),
    }
}

/// Makes the tree of all lines, and goes on with it.
fn romfs_files<H: Host>(
    alloc: Global,
    items: &[Item],
    files: Vec<Vec<u8>>,
    image: &str,
    host: &mut H,
) -> Result<Answer, AllocError>
    requires items { AllByRecursion IsItem (map item_value items.now) }
    requires paths { AllByRecursion HasClearPath (map item_value items.now) }
    requires files { length files.items ≡ length items.now }
    ensures { Performs (observed H.told H.faults host.old) (observed H.told H.faults host.new) (filed_outcome image.now (map item_value items.now) (vec_texts files.items)) (ending_of result) }
{
    match bring(alloc, items, files) {
        Ok(run) => store_tree(alloc, &run.tree, image, host),
        Err(refusal) => refuse_line(alloc, &refusal).answer(),
    }
}

/// Makes the image of a tree, and stores it.
fn store_tree<H: Host>(
    alloc: Global,
    tree: &Tree,
    image: &str,
    host: &mut H,
) -> Result<Answer, AllocError>
    requires tree { IsTree tree.now }
    requires names { CanBeWritten tree.now }
    ensures { Performs (observed H.told H.faults host.old) (observed H.told H.faults host.new) (imaged_outcome image.now (tree_nodes tree.now)) (ending_of result) }
{
    let nodes = tree_nodes(alloc, tree)?;
    match make(alloc, &nodes) {
        Ok(bytes) => {
            let line = image_line(alloc, nodes.len(), bytes.len())?;
            store_file(alloc, image, &bytes, Answer::done(alloc, line), host)
        }
        Err(MakeFault::TooLarge) => {
            let text = texts::refused(alloc, "too large");
            Answer::early(alloc, Status::Refused, text)
        }
        Err(MakeFault::Memory) => Err(AllocError),
    }
}
