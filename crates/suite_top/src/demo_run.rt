//! The command `demo N`.
ghost use Rattle.std.specs.Prelude.{◌≡◌, ◌≤◌, length, map, IfOk};
ghost use Rattle.page_runs.specs.declared.place.Kind.{Kind};
ghost use Rattle.page_runs.specs.Choosers.{IsChooser, kind_of};
ghost use Rattle.quantum_sched.specs.declared.Quantum.{Quantum};
ghost use Rattle.manifest_text.specs.Values.{item_value, start_value, manifest_value, vec_texts};
ghost use Rattle.elf_maker.specs.Demo.{demo_file};
ghost use Rattle.file_commands.specs.Observed.{observed};
ghost use Rattle.file_commands.specs.Answer.{ending_of};
ghost use Rattle.file_commands.specs.HostCourse.{Performs};
ghost use Rattle.file_commands.specs.Arguments.{least_programs, most_programs};
ghost use Rattle.suite_top.specs.Points.{ArePoints};
ghost use Rattle.suite_top.specs.Demo.{each_of, demo_path, demo_item, demo_start, demo_quanta, demo_manifest, demo_run};

use crate::loaded::Loaded;
use crate::points::Points;
use crate::run::run_files;
use crate::telling::Telling;
use elf_maker::demo;
use file_commands::{Answer, DEFAULT_STACK, settled};
use host_io::Host;
use manifest_text::{Item, ItemKind, Manifest, Start};
use page_runs::{Chooser, Run};
use quantum_sched::Quantum;
use std::alloc::{AllocError, Global};
use watch_points::Span;

/// The pages of memory: two for each of the most programs.
const PAGES: u32 = 128;

/// How often the quanta are gone through, which is more than the most programs need.
const REPEAT: u32 = 100_000;

/// Runs programs 1 to `programs` of the demo. Nothing is asked of the host.
pub fn run_demo<H: Host, F, P, Q>(
    alloc: Global,
    programs: u32,
    chooser: &Chooser<F>,
    points: &Points<P, Q>,
    host: &mut H,
) -> Result<Answer, AllocError>
where
    F: Fn(&[Run], u32) -> Option<usize>,
    P: Fn(&[Span], u32, u32) -> bool,
    Q: Fn(&[Span], u32, u32) -> bool,
    requires chooser { IsChooser F.pre F.post chooser.now }
    requires points { ArePoints P.pre P.post Q.pre Q.post points.now }
    requires first { kind_of chooser.now ≡ Kind.First }
    requires some { least_programs ≤ programs }
    requires few { programs ≤ most_programs }
    ensures { Performs (observed H.told H.faults host.old) (observed H.told H.faults host.new) (demo_run programs) (ending_of result) }
{
    let manifest = demo_manifest(alloc, programs)?;
    let files = demo_files(alloc, programs)?;
    let steps = run_files(
        alloc,
        Loaded { manifest, files },
        Telling::Demo { programs },
        chooser,
        points,
        host,
    );
    settled(steps)
}

/// The manifest that the programs run by.
#[tactic(auto, unfolding(crate::specs::Demo::demo_manifest))]
fn demo_manifest(alloc: Global, programs: u32) -> Result<Manifest, AllocError>
    requires { programs ≤ most_programs }
    ensures { IfOk result (λ m. manifest_value m ≡ demo_manifest programs) }
{
    let items = demo_items(alloc, programs)?;
    let starts = demo_starts(alloc, programs)?;
    let quanta = demo_quanta(alloc)?;
    Ok(Manifest {
        pages: PAGES,
        items,
        starts,
        quanta,
        repeat: REPEAT,
        dumps: Vec::new(alloc),
        watches: Vec::new(alloc),
    })
}

fn demo_quanta(alloc: Global) -> Result<Vec<Quantum>, AllocError>
    ensures { IfOk result (λ quanta. quanta.items ≡ demo_quanta) }
{
    let quanta = [
        Quantum { pick: 0, count: 50 },
        Quantum { pick: 1, count: 30 },
        Quantum { pick: 2, count: 70 },
    ];
    Vec::from_slice(alloc, &quanta)
}

fn demo_items(alloc: Global, programs: u32) -> Result<Vec<Item>, AllocError>
    requires { programs ≤ most_programs }
    ensures { IfOk result (λ items. map item_value items.items ≡ each_of demo_item programs) }
{
    let mut items = Vec::new(alloc);
    for before in 0..programs {
        items.push(demo_item(alloc, before + 1)?)?;
    }
    Ok(items)
}

fn demo_starts(alloc: Global, programs: u32) -> Result<Vec<Start>, AllocError>
    requires { programs ≤ most_programs }
    ensures { IfOk result (λ starts. map start_value starts.items ≡ each_of demo_start programs) }
{
    let mut starts = Vec::new(alloc);
    for before in 0..programs {
        starts.push(demo_start(alloc, before + 1)?)?;
    }
    Ok(starts)
}

/// The ELF files of the programs.
fn demo_files(alloc: Global, programs: u32) -> Result<Vec<Vec<u8>>, AllocError>
    requires { programs ≤ most_programs }
    ensures { IfOk result (λ files. vec_texts files.items ≡ each_of demo_file programs) }
{
    let mut files = Vec::new(alloc);
    for before in 0..programs {
        files.push(demo(alloc, before + 1)?)?;
    }
    Ok(files)
}

fn demo_item(alloc: Global, number: u32) -> Result<Item, AllocError>
    ensures { IfOk result (λ item. item_value item ≡ demo_item number) }
{
    let path = demo_path(alloc, number)?;
    Ok(Item {
        line: number,
        kind: ItemKind::Elf,
        path,
        name: Vec::new(alloc),
        stack: DEFAULT_STACK,
    })
}

fn demo_start(alloc: Global, number: u32) -> Result<Start, AllocError>
    ensures { IfOk result (λ start. start_value start ≡ demo_start number) }
{
    let path = demo_path(alloc, number)?;
    let mut args = Vec::new(alloc);
    args.push(path)?;
    Ok(Start { line: number, args })
}

/// Where a program stands.
fn demo_path(alloc: Global, number: u32) -> Result<Vec<u8>, AllocError>
    ensures { IfOk result (λ path. path.items ≡ demo_path number) }
{
    let path = format!(in alloc; "/p{number}")?;
    Ok(path.into_bytes())
}
