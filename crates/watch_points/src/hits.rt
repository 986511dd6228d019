//! The hits of a run.

ghost use Rattle.std.specs.Prelude.{◌≡◌, IfOk, [], ◌∷◌};
ghost use Rattle.watch_points.specs.Points.{most_hits, none_found, with_hits};

use rv32im_step::Access;
use std::alloc::{AllocError, Global};
use std::marker::Model;

/// How many hits a run that is watched keeps.
const MOST_HITS: usize = 65_536;

/// A load or store that hit, and the process that made it.
#[derive(Clone, Copy, PartialEq, Eq)]
pub struct Hit {
    pub pid: u32,
    pub access: Access,
}

/// The first hits of a run, and how many there were.
#[derive(Drop)]
pub struct Hits {
    kept: Vec<Hit>,
    count: u64,
    limit: usize,
}

impl Model for Hits {
    ghost use Rattle.std.specs.Prelude.{◌^◌, ◌<◌, ◌≤◌, vec_capacity};
    ghost use Rattle.watch_points.specs.Points.{Found};

    ghost Value = { Found };

    ghost view = { λ s. record { list = s.kept.items; total = s.count; most = s.limit } };

    ghost invariant = { λ s. s.limit ≤ vec_capacity s.kept };
}

impl Hits {
    /// No hit yet, with room for the first 65,536.
    pub fn new(alloc: Global) -> Result<Hits, AllocError>
        ensures { IfOk result (λ hits. hits ≡ none_found most_hits) }
    {
        Ok(Hits {
            kept: Vec::with_capacity(alloc, MOST_HITS)?,
            count: 0,
            limit: MOST_HITS,
        })
    }

    /// No hit yet, and room for none: takes no memory, for runs in which nothing is watched.
    pub fn none(alloc: Global) -> Hits
        ensures { result ≡ none_found 0 }
    {
        Hits {
            kept: Vec::new(alloc),
            count: 0,
            limit: 0,
        }
    }

    /// The first hits, up to the number for which there was room.
    pub fn list(&self) -> &[Hit]
        ensures { result.now ≡ self.now.list }
    {
        &self.kept
    }

    /// How many hits there were. It stands still at 2^64 - 1.
    pub fn total(&self) -> u64
        ensures { result ≡ self.now.total }
    {
        self.count
    }

    /// Adds one more.
    pub(crate) fn add(&mut self, hit: Hit)
        ensures { self.new ≡ with_hits self.old (hit ∷ []) }
    {
        if self.kept.len() < self.limit {
            self.kept.push(hit).unwrap();
        }
        self.count = self.count.saturating_add(1);
    }
}
