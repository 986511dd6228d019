//! Tests of `psabi_relocs`: what no file tells from outside, since a file is refused at its first fault.

ghost use Rattle.std.specs.Prelude.{◌≡◌};
ghost use Rattle.elf32_reader.specs.Relas.{is_kept};

use crate::sample::ONE_WORD_ELF;
use elf32_reader::Elf;
use flat_layout::Layout;
use psabi_relocs::*;
use std::alloc::{AllocError, Global};
use std::test::*;

/// The section of the relocations.
const RELA: u32 = 5;

/// The words of `ONE_WORD_ELF` that are others in these files, by their offsets. Of .text, at 0x10000, .symtab and .rela
/// the content stands behind the section headers; .data is at 0x11000; and the relocations are those of .text.
static HEADERS: [(usize, u32); 8] = [
    (172, 356),
    (176, 16),
    (208, 0x11000),
    (252, 372),
    (256, 80),
    (332, 452),
    (336, 48),
    (344, 1),
];

/// Where the word of .data stands.
const DATA: usize = 60;

/// Symbols without a name: the empty one, two of .text at 0x10020 and at 0x10000, an absolute one, and a weak one of no
/// section.
static SYMBOLS: [u32; 20] = [
    0,
    0,
    0,
    0,
    0,
    0x10020,
    0,
    0x1_0010,
    0,
    0x10000,
    0,
    0x1_0010,
    0,
    0,
    0,
    0xfff1_0010,
    0,
    9,
    0,
    0x20,
];

/// Bytes: the address of the first, their number, and whether they are recorded.
type Bytes = (u32, u32, bool);

/// What an entry says: its row, its place, its symbol's value and class, and its addend; and its bytes, those of its
/// field and those of its slot.
type Told = (
    (&'static str, u32, u32, &'static str, u32),
    Bytes,
    Option<Bytes>,
);

/// A file: the words of .text, that of .data, its entries, each an offset, a symbol and a type, and an addend, and what
/// each entry is.
struct Case {
    text: [u32; 4],
    data: u32,
    entries: [u32; 12],
    answers: &'static [Result<Told, RelocFault>],
}

const MARK: Result<Told, RelocFault> = Ok((("Mark", 0, 0, "Fixed", 0), (0, 0, false), None));

static CASES: [Case; 3] = [
    // auipc a0, 1 and lw a0, 0(a0) load from a slot, a word points to 0xfffc, and a byte is a weak symbol's, plus 1
    Case {
        text: [0x1517, 0x0005_2503, 0xfffc, 0],
        data: 0x10020,
        entries: [
            0x10000,
            0x114,
            0,
            0x10004,
            0x218,
            0,
            0x10008,
            0x201,
            0xffff_fffc,
            0x1000c,
            0x421,
            1,
        ],
        answers: &[
            Ok((
                ("GotHi20", 0x10000, 0x10020, "Moves", 0),
                (0x10000, 4, false),
                Some((0x11000, 4, true)),
            )),
            Ok((
                ("LowI", 0x10004, 0x10000, "Moves", 0),
                (0x10004, 4, false),
                None,
            )),
            Ok((
                ("Pointer", 0x10008, 0x10000, "Moves", 0xffff_fffc),
                (0x10008, 4, true),
                None,
            )),
            Ok((("Add8", 0x1000c, 0, "Weak", 1), (0x1000c, 1, false), None)),
        ],
    },
    // the slot is a weak symbol's, and auipc ra, 0 and jalr ra, 24(ra) call 0x10020
    Case {
        text: [0x1517, 0x0005_2503, 0x97, 0x0180_80e7],
        data: 0,
        entries: [
            0x10000, 0x414, 0, 0x10004, 0x218, 0, 0x10008, 0x112, 0, 0x1000c, 0x33, 4,
        ],
        answers: &[
            Ok((
                ("GotHi20", 0x10000, 0, "Weak", 0),
                (0x10000, 4, false),
                Some((0x11000, 4, false)),
            )),
            Ok((
                ("LowI", 0x10004, 0x10000, "Moves", 0),
                (0x10004, 4, false),
                None,
            )),
            Ok((
                ("Call", 0x10008, 0x10020, "Moves", 0),
                (0x10008, 8, false),
                None,
            )),
            Ok((("Mark", 0x1000c, 0, "Fixed", 4), (0x1000c, 0, false), None)),
        ],
    },
    // SUB8 of a symbol that moves, and SET8 of another one in its place: both have no partner
    Case {
        text: [0; 4],
        data: 0,
        entries: [0x10000, 0x125, 0, 0x10000, 0x236, 0, 0, 0, 0, 0, 0, 0],
        answers: &[
            Err(RelocFault::Unpaired),
            Err(RelocFault::Unpaired),
            MARK,
            MARK,
        ],
    },
];

/// Puts a word into a file, if it has that offset.
fn put_word(file: &mut [u8], offset: usize, word: u32) {
    if let Some(bytes) = file.get_mut(offset..offset.saturating_add(4)) {
        bytes.copy_from_slice(&word.to_le_bytes());
    }
}

fn add_words(file: &mut Vec<u8>, words: &[u32]) -> Result<(), AllocError> {
    for word in words {
        file.extend_from_slice(&word.to_le_bytes())?;
    }
    Ok(())
}

fn file_of(alloc: Global, case: &Case) -> Result<Vec<u8>, AllocError> {
    let mut file = Vec::from_slice(alloc, &ONE_WORD_ELF)?;
    put_word(&mut file, DATA, case.data);
    for (offset, word) in &HEADERS {
        put_word(&mut file, *offset, *word);
    }
    for words in [case.text.as_slice(), &SYMBOLS, &case.entries] {
        add_words(&mut file, words)?;
    }
    Ok(file)
}

fn row_name(row: Row) -> &'static str {
    match row {
        Row::Mark => "Mark",
        Row::Pointer => "Pointer",
        Row::Call => "Call",
        Row::GotHi20 => "GotHi20",
        Row::Low(Shape::LowI) => "LowI",
        Row::Group(Width::Bits8, Step::Add) => "Add8",
        _ => "another one",
    }
}

fn class_name(class: Class) -> &'static str {
    match class {
        Class::Moves => "Moves",
        Class::Fixed => "Fixed",
        Class::Weak => "Weak",
        Class::Undefined | Class::Bad => "another one",
    }
}

fn bytes_of(span: Span) -> Bytes {
    (span.place, span.len, span.recorded)
}

fn told(reloc: Reloc, spans: Spans) -> Told {
    let says = (
        row_name(reloc.row),
        reloc.place,
        reloc.value,
        class_name(reloc.class),
        reloc.addend,
    );
    (says, bytes_of(spans.own), spans.slot.map(bytes_of))
}

/// Whether the section is kept.
#[tactic(auto, unfolding(elf32_reader::specs::Relas::is_kept))]
fn is_kept(elf: &Elf<'_>) -> bool
    ensures { result ≡ is_kept elf.now 5 }
{
    RELA < elf.sections() && elf.kept(RELA)
}

/// Whether an entry is as it has to be, in a file that has a layout.
#[tactic(auto, using(flat_layout::proofs::Facts::clear_numbers))]
fn is_judged(
    alloc: Global,
    file: &[u8],
    entry: u32,
    want: &Result<Told, RelocFault>,
) -> Result<bool, Fail> {
    let elf = Elf::read(file)?;
    let _layout = Layout::of(&elf)?;
    if !is_kept(&elf) || entry >= elf.relas(RELA) {
        return Ok(false);
    }
    let stored = StoredSections::of(alloc, &elf)?;
    let pairs = Pairs::of(alloc, &elf, RELA)?;
    let answer = check(&elf, &stored, &pairs, RELA, entry);
    let reloc = reloc_at(&elf, RELA, entry);
    Ok(answer.map(|checked| told(reloc, checked.spans)) == *want)
}

/// Whether the four entries of a file are as they have to be.
fn are_judged(
    alloc: Global,
    file: &[u8],
    answers: &[Result<Told, RelocFault>],
) -> Result<bool, Fail> {
    for entry in 0..4 {
        let Some(want) = answers.get(entry as usize) else {
            return Ok(false);
        };
        if !is_judged(alloc, file, entry, want)? {
            return Ok(false);
        }
    }
    Ok(true)
}

fn holds(alloc: Global, case: &Case) -> Result<bool, Fail> {
    let file = file_of(alloc, case)?;
    are_judged(alloc, &file, case.answers)
}

#[test]
fn entries_and_bytes(rt: HostRuntime) -> Result<(), Fail> {
    for case in &CASES {
        assert!(rt; holds(rt.alloc(), case)?);
    }
    Ok(())
}
