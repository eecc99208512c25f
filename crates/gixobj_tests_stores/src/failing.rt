//! A store in memory that counts its calls, and fails in some of them.
ghost use Rattle.std.specs.Prelude.{◌≡◌};
ghost use Rattle.gixobj_store_keep.specs.Memory.{memory_objects};

use bstr::BString;
use gixobj_hash::Header;
use gixobj_hash::hash::{ObjectId, oid};
use gixobj_store::{Data, Exists, Find, FindHeader, Store};
use gixobj_store_find::find;
use gixobj_store_keep::{Keep, KeepCommit, KeepError, Memory};
use gixobj_tree::Tree;
use std::alloc::Global;
use std::cell::Cell;

/// The message of the error of a call that fails.
pub const OFFLINE: &[u8] = b"offline";

/// A store of the objects of another, which fails in listed calls. [`Failing::new`] makes one. Lookups and
/// calls that keep something are counted separately, from 1.
#[derive(Drop)]
pub struct Failing {
    alloc: Global,
    objects: Memory,
    lookups_that_fail: &'static [u64],
    keeps_that_fail: &'static [u64],
    lookups: Cell<u64>,
    keeps: u64,
    commits: u64,
}

impl Failing {
    /// Makes a store of these objects. It fails in the lookups and in the calls that keep something with
    /// these numbers.
    pub fn new(
        alloc: Global,
        objects: Memory,
        lookups_that_fail: &'static [u64],
        keeps_that_fail: &'static [u64],
    ) -> Failing {
        Failing {
            alloc,
            objects,
            lookups_that_fail,
            keeps_that_fail,
            lookups: Cell::new(0),
            keeps: 0,
            commits: 0,
        }
    }

    /// The number of lookups, failed ones included.
    pub fn lookups(&self) -> u64 {
        self.lookups.get()
    }

    /// The number of calls that keep a tree or a commit, failed ones included.
    pub fn keeps(&self) -> u64 {
        self.keeps
    }

    /// The number of calls that keep a commit, failed ones included.
    pub fn commits(&self) -> u64 {
        self.commits
    }

    /// Counts a lookup, and fails if its number is in the list.
    fn count_lookup(&self) -> Result<(), find::Error> {
        let at = self.lookups.get().saturating_add(1);
        self.lookups.set(at);
        if self.lookups_that_fail.contains(&at) {
            return Err(find::Error::Store(BString::from_slice(self.alloc, OFFLINE)?));
        }
        Ok(())
    }

    /// Counts a call that keeps something, and fails if its number is in the list.
    fn count_keep(&mut self) -> Result<(), KeepError>
        ensures { self.new.objects ≡ self.old.objects }
    {
        self.keeps = self.keeps.saturating_add(1);
        if self.keeps_that_fail.contains(&self.keeps) {
            return Err(KeepError::Store(BString::from_slice(self.alloc, OFFLINE)?));
        }
        Ok(())
    }
}

/// Every lookup may fail.
impl Store for Failing {
    ghost use Rattle.std.specs.Prelude.{true};

    ghost objects = { λ store. memory_objects store.objects };

    ghost may_fail = { λ store id. true };
}

impl Find for Failing {
    fn try_find<'a>(
        &self,
        id: oid<'_>,
        buffer: &'a mut Vec<u8>,
    ) -> Result<Option<Data<'a>>, find::Error> {
        self.count_lookup()?;
        self.objects.try_find(id, buffer)
    }
}

impl FindHeader for Failing {
    fn try_header(&self, id: oid<'_>) -> Result<Option<Header>, find::Error> {
        self.count_lookup()?;
        self.objects.try_header(id)
    }
}

impl Exists for Failing {
    fn exists(&self, id: oid<'_>) -> bool {
        self.count_lookup().is_ok() && self.objects.exists(id)
    }
}

impl Keep for Failing {
    ghost use Rattle.gixobj_store_keep.specs.Keeping.{IsKeepError};
    ghost use Rattle.std.specs.Prelude.{true};

    ghost keep_errors = { λ store. IsKeepError (λ id. true) };

    fn keep(&mut self, id: ObjectId, tree: &Tree) -> Result<(), KeepError> {
        self.count_keep()?;
        self.objects.keep(id, tree)
    }
}

impl KeepCommit for Failing {
    ghost use Rattle.gixobj_store_keep.specs.Keeping.{IsKeepCommitError};
    ghost use Rattle.std.specs.Prelude.{true};

    ghost keep_commit_errors = { λ store id bytes. IsKeepCommitError (λ other. true) id };

    fn keep_commit(&mut self, id: ObjectId, bytes: &[u8]) -> Result<(), KeepError> {
        self.commits = self.commits.saturating_add(1);
        self.count_keep()?;
        self.objects.keep_commit(id, bytes)
    }
}
