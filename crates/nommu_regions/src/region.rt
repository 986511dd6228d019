//! A region.

ghost use Rattle.std.specs.Prelude.{◌≡◌, ◌+◌, ◌≤◌};
ghost use Rattle.nommu_regions.specs.Regions.{covers, before, behind};

/// Where the bytes of a region come from.
#[derive(Clone, Copy, Drop)]
pub enum Source {
    /// They are the region's own, and may be written.
    Own,
    /// They are a copy of the pages of file number `file` from its page `first` on, made when its bytes had been changed `change`
    /// times. Nobody writes them, so programs can share them.
    Copy { file: u32, change: u64, first: u32 },
}

/// `pages` pages from page `first` on, held as often as `uses` says. Page 0 is the first page of memory.
#[derive(Clone, Copy, Drop)]
pub struct Region {
    pub first: u32,
    pub pages: u32,
    pub source: Source,
    pub uses: u32,
}

impl Region {
    /// Whether it is a live copy that has `pages` pages of a file from its page `first` on, made at this change count of the file.
    pub(crate) fn covers(&self, file: u32, change: u64, first: u32, pages: u32) -> bool
        ensures { result ≡ covers file change first pages self.now }
    {
        let end = u64::from(first) + u64::from(pages);
        match self.source {
            Source::Own => false,
            Source::Copy {
                file: of,
                change: at,
                first: from,
            } => {
                self.uses > 0
                    && of == file
                    && at == change
                    && from <= first
                    && end <= u64::from(from) + u64::from(self.pages)
            }
        }
    }

    /// What is left of it before a page that isn't before its first one. Without a page it has no use.
    pub(crate) fn before(self, page: u32) -> Region
        requires { self.first ≤ page }
        ensures { result ≡ before self page }
    {
        Region {
            pages: page - self.first,
            uses: if page == self.first { 0 } else { self.uses },
            ..self
        }
    }

    /// What is left of it from a page on.
    pub(crate) fn behind(self, page: u32) -> Region
        requires first { self.first ≤ page }
        requires end { page ≤ self.first + self.pages }
        ensures { result ≡ behind self page }
    {
        Region {
            first: page,
            pages: self.pages - (page - self.first),
            ..self
        }
    }
}
