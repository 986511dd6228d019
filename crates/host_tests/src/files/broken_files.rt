//! Real files of which one step fails, or whose names lead elsewhere, and at which reads and writes are short.

use host_io::FolderHost;
use std::alloc::{AllocError, Allocator};
use std::fs::{File, Metadata, OpenFile, OpenOptions, Permissions};
use std::io::{ErrorKind, Read, Seek, SeekFrom, Write};
use std::os::unix::fs::PermissionsExt;
use std::path::PathBuf;
use std::rt::Files;
use std::{fs, io};

/// What is broken.
#[derive(Clone, Copy, PartialEq, Eq)]
pub(crate) enum Step {
    /// Nothing.
    None,
    /// The look at what stands at a name.
    Look,
    /// The open of a folder.
    Folder,
    /// A file's access bits.
    Access,
    /// The end of what is read.
    Read,
    /// The third write.
    Write,
    /// The flush of a file.
    Sync,
    /// Each step at which others may open the new file, and the rename where its bits aren't the old file's.
    Leak,
    Rename,
    /// The flush of a folder.
    FolderSync,
    /// The flush of a folder, which the file system doesn't have.
    NoFolderSync,
    /// No step, but every path is one of its own, with nothing behind links.
    OwnPaths,
}

/// The only names that are opened: a folder, and a new file in it, which is renamed to the target. Nothing stands there,
/// and what is opened in their place is the file `written`.
#[derive(Drop)]
pub(super) struct Names {
    pub(super) written: String,
    pub(super) folder: &'static str,
    pub(super) beside: &'static str,
    pub(super) target: &'static str,
}

/// The real files, at which one step fails.
#[derive(Drop)]
pub(crate) struct BrokenFiles {
    real: HostRuntime,
    broken: Step,
    names: Option<Names>,
}

impl BrokenFiles {
    pub(crate) fn new(real: HostRuntime, broken: Step) -> BrokenFiles {
        BrokenFiles {
            real,
            broken,
            names: None,
        }
    }
}

/// A host over real files of which this step fails.
pub(super) fn broken_host(
    rt: &HostRuntime,
    broken: Step,
) -> Result<FolderHost<BrokenFiles>, AllocError> {
    let files = BrokenFiles::new(rt.clone()?, broken);
    Ok(FolderHost::new(files, "host_io", 7))
}

/// A host over files of which these names alone are opened.
pub(super) fn named_host(
    rt: &HostRuntime,
    names: Names,
) -> Result<FolderHost<BrokenFiles>, AllocError> {
    let files = BrokenFiles {
        real: rt.clone()?,
        broken: Step::None,
        names: Some(names),
    };
    Ok(FolderHost::new(files, "host_io", 7))
}

fn refused<T>() -> io::Result<T> {
    Err(io::Error::from(ErrorKind::Other))
}

impl Names {
    fn open(&self, real: &HostRuntime, how: &OpenOptions, path: &str) -> io::Result<File> {
        let want = if how.asks_create_new() {
            self.beside
        } else {
            self.folder
        };
        if path != want {
            return refused();
        }
        fs::create(real, self.written.as_str())
    }

    fn rename(&self, from: &str, to: &str) -> io::Result<()> {
        if from != self.beside || to != self.target {
            return refused();
        }
        Ok(())
    }
}

/// An error, if this step is the broken one.
fn try_step(broken: Step, step: Step) -> io::Result<()> {
    if broken == step {
        return refused();
    }
    Ok(())
}

/// An error where others may open a file, if that is what is looked for.
fn check_private(broken: Step, file: &File) -> io::Result<()> {
    if file.metadata()?.permissions().mode() & 0o077 != 0 {
        try_step(broken, Step::Leak)?;
    }
    Ok(())
}

/// A real file that gives one byte at every second read, and breaks off the others by a signal; so it takes at most
/// two bytes at every second write.
#[derive(Drop)]
pub(crate) struct BrokenFile {
    real: File,
    broken: Step,
    is_interrupted: bool,
    writes: u32,
}

impl Read for BrokenFile {
    fn read(&mut self, buf: &mut [u8]) -> io::Result<usize> {
        self.is_interrupted = !self.is_interrupted;
        if self.is_interrupted {
            return Err(io::Error::from(ErrorKind::Interrupted));
        }
        let most = buf.len().min(1);
        let taken = self.real.read(&mut buf[..most])?;
        if taken == 0 {
            try_step(self.broken, Step::Read)?;
        }
        Ok(taken)
    }
}

impl Write for BrokenFile {
    fn write(&mut self, buf: &[u8]) -> io::Result<usize> {
        self.is_interrupted = !self.is_interrupted;
        if self.is_interrupted {
            return Err(io::Error::from(ErrorKind::Interrupted));
        }
        if self.writes >= 2 {
            try_step(self.broken, Step::Write)?;
        }
        self.writes = self.writes.saturating_add(1);
        check_private(self.broken, &self.real)?;
        self.real.write(&buf[..buf.len().min(2)])
    }

    fn flush(&mut self) -> io::Result<()> {
        self.real.flush()
    }
}

impl Seek for BrokenFile {
    fn seek(&mut self, _to: SeekFrom) -> io::Result<u64> {
        refused()
    }
}

impl OpenFile for BrokenFile {
    fn metadata(&self) -> io::Result<Metadata> {
        self.real.metadata()
    }

    fn set_len(&self, _size: u64) -> io::Result<()> {
        refused()
    }

    fn sync_all(&self) -> io::Result<()> {
        if self.real.metadata()?.is_dir() {
            try_step(self.broken, Step::FolderSync)?;
            if self.broken == Step::NoFolderSync {
                return Err(io::Error::from(ErrorKind::InvalidInput));
            }
        } else {
            try_step(self.broken, Step::Sync)?;
        }
        self.real.sync_all()
    }

    fn sync_data(&self) -> io::Result<()> {
        refused()
    }

    fn set_permissions(&self, permissions: Permissions) -> io::Result<()> {
        try_step(self.broken, Step::Access)?;
        self.real.set_permissions(permissions)
    }
}

/// The bits of a file's mode.
pub(super) fn bits_of(rt: &HostRuntime, name: &str) -> io::Result<u32> {
    let about = fs::metadata(rt, name)?;
    Ok(about.permissions().mode() & 0o7777)
}

impl Files for BrokenFiles {
    type File = BrokenFile;

    type Dir = File;

    fn open_file(&self, how: &OpenOptions, path: &str) -> io::Result<BrokenFile> {
        let real = match &self.names {
            Some(names) => names.open(&self.real, how, path)?,
            None => how.open(&self.real, path)?,
        };
        if real.metadata()?.is_dir() {
            try_step(self.broken, Step::Folder)?;
        }
        if how.asks_create_new() {
            check_private(self.broken, &real)?;
        }
        Ok(BrokenFile {
            real,
            broken: self.broken,
            is_interrupted: false,
            writes: 0,
        })
    }

    fn open_dir(&self, _path: &str) -> io::Result<File> {
        refused()
    }

    fn metadata(&self, path: &str) -> io::Result<Metadata> {
        fs::metadata(&self.real, path)
    }

    fn symlink_metadata(&self, path: &str) -> io::Result<Metadata> {
        try_step(self.broken, Step::Look)?;
        if self.names.is_some() {
            return Err(io::Error::from(ErrorKind::NotFound));
        }
        if self.broken == Step::OwnPaths {
            return fs::metadata(&self.real, path);
        }
        fs::symlink_metadata(&self.real, path)
    }

    fn copy(&self, _from: &str, _to: &str) -> io::Result<u64> {
        refused()
    }

    fn rename(&self, from: &str, to: &str) -> io::Result<()> {
        try_step(self.broken, Step::Rename)?;
        if let Some(names) = &self.names {
            return names.rename(from, to);
        }
        if self.broken == Step::Leak && bits_of(&self.real, from)? != bits_of(&self.real, to)? {
            return refused();
        }
        fs::rename(&self.real, from, to)
    }

    fn remove_file(&self, path: &str) -> io::Result<()> {
        fs::remove_file(&self.real, path)
    }

    fn create_dir(&self, _path: &str) -> io::Result<()> {
        refused()
    }

    fn remove_dir(&self, _path: &str) -> io::Result<()> {
        refused()
    }

    fn remove_dir_all<B: Allocator>(&self, _alloc: B, _path: &str) -> io::Result<()> {
        refused()
    }

    fn canonicalize<B: Allocator>(&self, alloc: B, path: &str) -> io::Result<PathBuf<B>> {
        if self.broken == Step::OwnPaths {
            return Ok(PathBuf::from(String::from_str(alloc, path)?));
        }
        self.real.canonicalize(alloc, path)
    }
}
