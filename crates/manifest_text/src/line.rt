//! What a line says by itself.

ghost use Rattle.std.specs.Prelude.{◌≡◌, ◌==◌, map, slice_index, if◌then◌else◌, Some, None, option_map, IfOk};
ghost use Rattle.std.specs.List.{list_any, list_all};
ghost use Rattle.manifest_text.specs.Numbers.{is_quantum, quantum_value};
ghost use Rattle.manifest_text.specs.Values.{texts, vec_texts};
ghost use Rattle.manifest_text.specs.Lines.{hash, is_bad_byte, item_said, stacked_said, dump_of, watch_of, memory_said, elf_said, flat_said, file_said, dir_said, named_said, start_said, quanta_said, repeat_said, dump_said, watch_said, keyword_said, words_said, line_said};
ghost use Rattle.manifest_text.specs.Reading.{Says};

use crate::fault::{ManifestFault, ManifestRefusal};
use crate::first_word::keyword_of;
use crate::keyword::Keyword;
use crate::manifest::{Dump, Item, ItemKind, Start, WatchLine};
use crate::numbers::{address, number_in, quantum};
use crate::paths::is_path;
use crate::pieces::words;
use crate::spoken::Spoken;
use quantum_sched::Quantum;
use std::alloc::{AllocError, Global};

/// The bytes of stack of a program whose line doesn't say it.
const DEFAULT_STACK: u32 = 4096;

/// Reads the line of this number.
#[tactic(auto, unfolding(crate::specs::Lines::line_said))]
pub fn read_line(alloc: Global, number: u32, text: &[u8]) -> Result<Spoken, ManifestRefusal>
    ensures { Says number (line_said (record { number = number; text = text.now })) result }
{
    let words = words(alloc, text)?;
    read_words(alloc, number, text, &words)
}

#[tactic(auto, unfolding(crate::specs::Lines::words_said))]
fn read_words(
    alloc: Global,
    number: u32,
    text: &[u8],
    words: &[&[u8]],
) -> Result<Spoken, ManifestRefusal>
    ensures { Says number (words_said (record { number = number; text = text.now }) (texts words.now)) result }
{
    match words {
        [] => Ok(Spoken::Nothing),
        [word, args @ ..] => {
            if is_comment(word) {
                return Ok(Spoken::Nothing);
            }
            if has_bad_byte(text) {
                return Err(refusal(number, ManifestFault::BadByte));
            }
            read_args(alloc, number, keyword_of(word), args)
        }
    }
}

fn is_comment(word: &[u8]) -> bool
    ensures { result ≡ (slice_index word.now 0 == hash) }
{
    match word {
        [first, ..] => *first == b'#',
        [] => false,
    }
}

fn has_bad_byte(text: &[u8]) -> bool
    ensures { result ≡ list_any is_bad_byte text.now }
{
    for byte in text {
        if !(b' '..=b'~').contains(byte) {
            return true;
        }
    }
    false
}

fn refusal(line: u32, fault: ManifestFault) -> ManifestRefusal
    ensures { result ≡ ManifestRefusal.At line fault }
{
    ManifestRefusal::At { line, fault }
}

#[tactic(auto, unfolding(crate::specs::Lines::keyword_said))]
fn read_args(
    alloc: Global,
    number: u32,
    keyword: Option<Keyword>,
    args: &[&[u8]],
) -> Result<Spoken, ManifestRefusal>
    ensures { Says number (keyword_said number keyword (texts args.now)) result }
{
    match keyword {
        None => Err(refusal(number, ManifestFault::UnknownWord)),
        Some(Keyword::Memory) => read_memory(number, args),
        Some(Keyword::Elf) => read_elf(alloc, number, args),
        Some(Keyword::Flat) => read_flat(alloc, number, args),
        Some(Keyword::File) => read_file(alloc, number, args),
        Some(Keyword::Dir) => read_dir(alloc, number, args),
        Some(Keyword::Stdin) => read_named(alloc, number, ItemKind::Stdin, args),
        Some(Keyword::Root) => read_named(alloc, number, ItemKind::Root, args),
        Some(Keyword::Start) => read_start(alloc, number, args),
        Some(Keyword::Quanta) => read_quanta(alloc, number, args),
        Some(Keyword::Repeat) => read_repeat(number, args),
        Some(Keyword::Dump) => read_dump(number, args),
        Some(Keyword::Watch) => read_watch(number, args),
    }
}

/// `memory PAGES`
#[tactic(auto, unfolding(crate::specs::Lines::memory_said))]
fn read_memory(number: u32, args: &[&[u8]]) -> Result<Spoken, ManifestRefusal>
    ensures { Says number (memory_said (texts args.now)) result }
{
    match args {
        [pages] => match number_in(pages, 1, 16_384) {
            Some(pages) => Ok(Spoken::Memory(pages)),
            None => Err(refusal(number, ManifestFault::BadNumber)),
        },
        _ => Err(refusal(number, ManifestFault::WordCount)),
    }
}

/// `elf PATH NAME [STACK]`
#[tactic(auto, unfolding(crate::specs::Lines::elf_said))]
fn read_elf(alloc: Global, number: u32, args: &[&[u8]]) -> Result<Spoken, ManifestRefusal>
    ensures { Says number (elf_said number (texts args.now)) result }
{
    match args {
        [path, name] => read_item(alloc, number, ItemKind::Elf, path, name, DEFAULT_STACK),
        [path, name, stack] => {
            read_stacked(alloc, number, path, name, number_in(stack, 16, 1_048_576))
        }
        _ => Err(refusal(number, ManifestFault::WordCount)),
    }
}

fn read_stacked(
    alloc: Global,
    line: u32,
    path: &[u8],
    name: &[u8],
    stack: Option<u32>,
) -> Result<Spoken, ManifestRefusal>
    ensures { Says line (stacked_said line path.now name.now stack) result }
{
    match stack {
        Some(stack) => read_item(alloc, line, ItemKind::Elf, path, name, stack),
        None => Err(refusal(line, ManifestFault::BadNumber)),
    }
}

/// `flat PATH NAME`
#[tactic(auto, unfolding(crate::specs::Lines::flat_said))]
fn read_flat(alloc: Global, number: u32, args: &[&[u8]]) -> Result<Spoken, ManifestRefusal>
    ensures { Says number (flat_said number (texts args.now)) result }
{
    match args {
        [path, name] => read_item(alloc, number, ItemKind::Flat, path, name, 0),
        _ => Err(refusal(number, ManifestFault::WordCount)),
    }
}

/// `file PATH NAME`
#[tactic(auto, unfolding(crate::specs::Lines::file_said))]
fn read_file(alloc: Global, number: u32, args: &[&[u8]]) -> Result<Spoken, ManifestRefusal>
    ensures { Says number (file_said number (texts args.now)) result }
{
    match args {
        [path, name] => read_item(alloc, number, ItemKind::File, path, name, 0),
        _ => Err(refusal(number, ManifestFault::WordCount)),
    }
}

/// `dir PATH`
#[tactic(auto, unfolding(crate::specs::Lines::dir_said))]
fn read_dir(alloc: Global, number: u32, args: &[&[u8]]) -> Result<Spoken, ManifestRefusal>
    ensures { Says number (dir_said number (texts args.now)) result }
{
    match args {
        [path] => read_item(alloc, number, ItemKind::Dir, path, b"", 0),
        _ => Err(refusal(number, ManifestFault::WordCount)),
    }
}

/// `stdin NAME` and `root NAME`
#[tactic(auto, unfolding(crate::specs::Lines::named_said))]
fn read_named(
    alloc: Global,
    number: u32,
    kind: ItemKind,
    args: &[&[u8]],
) -> Result<Spoken, ManifestRefusal>
    ensures { Says number (named_said number kind (texts args.now)) result }
{
    match args {
        [name] => Ok(Spoken::Item(Item {
            line: number,
            kind,
            path: Vec::new(alloc),
            name: Vec::from_slice(alloc, name)?,
            stack: 0,
        })),
        _ => Err(refusal(number, ManifestFault::WordCount)),
    }
}

fn read_item(
    alloc: Global,
    line: u32,
    kind: ItemKind,
    path: &[u8],
    name: &[u8],
    stack: u32,
) -> Result<Spoken, ManifestRefusal>
    ensures { Says line (item_said line kind path.now name.now stack) result }
{
    if !is_path(path) {
        return Err(refusal(line, ManifestFault::BadPath));
    }
    let path = Vec::from_slice(alloc, path)?;
    let name = Vec::from_slice(alloc, name)?;
    Ok(Spoken::Item(Item {
        line,
        kind,
        path,
        name,
        stack,
    }))
}

/// `start PATH`, then any number of words.
#[tactic(auto, unfolding(crate::specs::Lines::start_said))]
fn read_start(alloc: Global, number: u32, args: &[&[u8]]) -> Result<Spoken, ManifestRefusal>
    ensures { Says number (start_said number (texts args.now)) result }
{
    match args {
        [] => Err(refusal(number, ManifestFault::WordCount)),
        [path, ..] => {
            if !is_path(path) {
                return Err(refusal(number, ManifestFault::BadPath));
            }
            let args = copies(alloc, args)?;
            Ok(Spoken::Start(Start { line: number, args }))
        }
    }
}

fn copies(alloc: Global, words: &[&[u8]]) -> Result<Vec<Vec<u8>>, AllocError>
    ensures { IfOk result (λ v. vec_texts v.items ≡ texts words.now) }
{
    let mut copies = Vec::new(alloc);
    for word in words {
        copies.push(Vec::from_slice(alloc, word)?)?;
    }
    Ok(copies)
}

/// `quanta`, then one or more words `K:N`.
#[tactic(auto, unfolding(crate::specs::Lines::quanta_said))]
fn read_quanta(alloc: Global, number: u32, args: &[&[u8]]) -> Result<Spoken, ManifestRefusal>
    ensures { Says number (quanta_said (texts args.now)) result }
{
    if args.is_empty() {
        return Err(refusal(number, ManifestFault::WordCount));
    }
    match quanta(alloc, args)? {
        Some(quanta) => Ok(Spoken::Quanta(quanta)),
        None => Err(refusal(number, ManifestFault::BadNumber)),
    }
}

fn quanta(alloc: Global, words: &[&[u8]]) -> Result<Option<Vec<Quantum>>, AllocError>
    ensures { IfOk result (λ r. option_map (λ v. v.items) r ≡ (if list_all is_quantum (texts words.now) then Some (map quantum_value (texts words.now)) else None)) }
{
    let mut quanta = Vec::new(alloc);
    for word in words {
        match quantum(alloc, word)? {
            Some(quantum) => quanta.push(quantum)?,
            None => return Ok(None),
        }
    }
    Ok(Some(quanta))
}

/// `repeat COUNT`
#[tactic(auto, unfolding(crate::specs::Lines::repeat_said))]
fn read_repeat(number: u32, args: &[&[u8]]) -> Result<Spoken, ManifestRefusal>
    ensures { Says number (repeat_said (texts args.now)) result }
{
    match args {
        [count] => match number_in(count, 1, 1_000_000) {
            Some(count) => Ok(Spoken::Repeat(count)),
            None => Err(refusal(number, ManifestFault::BadNumber)),
        },
        _ => Err(refusal(number, ManifestFault::WordCount)),
    }
}

/// `dump PID ADDR LEN`
#[tactic(auto, unfolding(crate::specs::Lines::dump_said))]
fn read_dump(number: u32, args: &[&[u8]]) -> Result<Spoken, ManifestRefusal>
    ensures { Says number (dump_said (texts args.now)) result }
{
    match args {
        [pid, addr, len] => read_range(
            number,
            number_in(pid, 1, 1_000_000),
            address(addr),
            number_in(len, 1, 4096),
        ),
        _ => Err(refusal(number, ManifestFault::WordCount)),
    }
}

fn read_range(
    line: u32,
    pid: Option<u32>,
    addr: Option<u32>,
    len: Option<u32>,
) -> Result<Spoken, ManifestRefusal>
    ensures { Says line (dump_of pid addr len) result }
{
    match (pid, addr, len) {
        (Some(pid), Some(addr), Some(len)) => Ok(Spoken::Dump(Dump { pid, addr, len })),
        _ => Err(refusal(line, ManifestFault::BadNumber)),
    }
}

/// `watch ADDR LEN`
#[tactic(auto, unfolding(crate::specs::Lines::watch_said))]
fn read_watch(number: u32, args: &[&[u8]]) -> Result<Spoken, ManifestRefusal>
    ensures { Says number (watch_said (texts args.now)) result }
{
    match args {
        [addr, len] => read_watched(number, address(addr), number_in(len, 1, u32::MAX)),
        _ => Err(refusal(number, ManifestFault::WordCount)),
    }
}

fn read_watched(line: u32, addr: Option<u32>, len: Option<u32>) -> Result<Spoken, ManifestRefusal>
    ensures { Says line (watch_of addr len) result }
{
    match (addr, len) {
        (Some(addr), Some(len)) if u64::from(addr) + u64::from(len) <= 1 << 32 => {
            Ok(Spoken::Watch(WatchLine { addr, len }))
        }
        _ => Err(refusal(line, ManifestFault::BadNumber)),
    }
}
