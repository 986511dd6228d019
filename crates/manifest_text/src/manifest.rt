//! What a manifest says.

use quantum_sched::Quantum;

/// What a line brings in.
#[derive(Clone, Copy, PartialEq, Eq)]
pub enum ItemKind {
    /// A program made from an ELF file.
    Elf,
    /// A program that is a flat file.
    Flat,
    /// A plain file.
    File,
    /// A folder.
    Dir,
    /// The console's input.
    Stdin,
    /// The files and folders of a romfs image.
    Root,
}

/// A line that brings in a file of the host, or makes folders.
#[derive(Drop)]
pub struct Item {
    /// The line's number, from 1.
    pub line: u32,
    pub kind: ItemKind,
    /// Where it stands in the machine; empty for the console's input and for an image.
    pub path: Vec<u8>,
    /// The host's name of the file; empty for a folder.
    pub name: Vec<u8>,
    /// The bytes of stack of an ELF file's program; 0 for all others. A flat file has its own.
    pub stack: u32,
}

/// A line that starts a process.
#[derive(Drop)]
pub struct Start {
    /// The line's number, from 1.
    pub line: u32,
    /// The process's arguments; the first one is the program's path.
    pub args: Vec<Vec<u8>>,
}

/// Bytes of a process that are shown after the run.
#[derive(Clone, Copy, PartialEq, Eq)]
pub struct Dump {
    pub pid: u32,
    pub addr: u32,
    /// In bytes, 1 to 4096.
    pub len: u32,
}

/// Bytes of memory whose loads and stores are shown where a run is watched.
#[derive(Clone, Copy, PartialEq, Eq)]
pub struct WatchLine {
    pub addr: u32,
    /// In bytes, at least 1; the range doesn't pass 2^32.
    pub len: u32,
}

/// A whole manifest.
#[derive(Drop)]
pub struct Manifest {
    /// The pages of memory.
    pub pages: u32,
    pub items: Vec<Item>,
    pub starts: Vec<Start>,
    pub quanta: Vec<Quantum>,
    /// How often the quanta are gone through.
    pub repeat: u32,
    pub dumps: Vec<Dump>,
    pub watches: Vec<WatchLine>,
}
