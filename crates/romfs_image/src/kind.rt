//! The types of headers.

ghost use Rattle.std.specs.Prelude.{◌≡◌, ◌%◌, ◌==◌};
ghost use Rattle.romfs_image.specs.Code.{kind_number};

/// A header's type (romfs.rst, "file header"). Headers of the last five are passed over.
#[derive(Clone, Copy)]
pub enum HeaderKind {
    HardLink,
    Folder,
    File,
    SymbolicLink,
    BlockDevice,
    CharDevice,
    Socket,
    Fifo,
}

impl HeaderKind {
    /// The type in the low three bits of a word.
    pub fn of(word: u32) -> HeaderKind
        ensures { kind_number result ≡ word % 8 }
    {
        match word % 8 {
            0 => HeaderKind::HardLink,
            1 => HeaderKind::Folder,
            2 => HeaderKind::File,
            3 => HeaderKind::SymbolicLink,
            4 => HeaderKind::BlockDevice,
            5 => HeaderKind::CharDevice,
            6 => HeaderKind::Socket,
            _ => HeaderKind::Fifo,
        }
    }

    pub fn is_link(self) -> bool
        ensures { result ≡ (kind_number self == 0) }
    {
        matches!(self, HeaderKind::HardLink)
    }

    pub fn is_folder(self) -> bool
        ensures { result ≡ (kind_number self == 1) }
    {
        matches!(self, HeaderKind::Folder)
    }

    pub fn is_file(self) -> bool
        ensures { result ≡ (kind_number self == 2) }
    {
        matches!(self, HeaderKind::File)
    }
}
