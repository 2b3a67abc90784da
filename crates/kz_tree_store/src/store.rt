//! A tree on a disk.
ghost use Rattle.std.specs.Prelude.{◌≡◌, ℕ, List, Some, true, false};
ghost use Rattle.kz_spec_data.specs.Frames.{tree_letter};
ghost use Rattle.kz_journal.specs.Held.{disk_of, letter_of, has_ended, is_down};
ghost use Rattle.kz_tree_store.specs.Held.{ArePositive};
ghost use Rattle.kz_tree_store.specs.Opened.{IsTreeFile};

use crate::fault::TreeOpenFault;
use crate::open::{open_fault, read_frames};
use kz_disk::Disk;
use kz_journal::Journal;
use kz_tree::Tree;
use kz_types::{Row, Sequence};
use std::alloc::Global;
use std::mem;

/// A tree of znodes on a disk. Its file is a journal of the letter `T`, which has a frame for each transaction; the tree is also
/// held in memory. A change counts once its frame is whole on the disk.
///
/// From a request on that answers `Device` the store is down, and makes no call of the disk.
#[derive(Drop)]
pub struct TreeStore<D: Disk> {
    pub(crate) alloc: Global,
    pub(crate) journal: Journal<D>,
    pub(crate) tree: Tree,
    // The file has no frame but those of znodes that are loaded.
    pub(crate) fresh: bool,
    // The znodes of the load that this store has begun, while the load is under way.
    pub(crate) loaded: Option<Sequence<Row>>,
    // A call of the disk has failed.
    pub(crate) down: bool,
    ghost positive: { ArePositive tree.sessions },
    ghost letter: { letter_of journal ≡ tree_letter },
    ghost down_is: { down ≡ is_down journal },
    ghost ended: { is_down journal ≡ false → has_ended journal ≡ true },
    // While the store isn't down, what it knows is so of the file.
    ghost same: { is_down journal ≡ false → (file : List ℕ) → D.told (disk_of journal) ≡ Some file → IsTreeFile file (record { tree = tree; fresh = fresh; loaded = loaded }) },
}

impl<D: Disk> TreeStore<D> {
    ghost use Rattle.std.specs.Prelude.{IfOk, IfErr};
    ghost use Rattle.kz_tree_store.specs.Stores.{is_fresh, store_disk, store_state, IsOpened, IsUnopened, HasOpenCause, LeftByOpening};

    /// Opens the disk's file as a tree's journal, and reads all of it into memory. The file is only written to close the gate after
    /// its last frame, so a stop at any moment leaves the tree that it stands for.
    ///
    /// `DiskFault`: a call of the disk failed. `Damaged`: the first place of the file, in bytes, at which it stands for no tree; it
    /// has the header of no tree's journal, a frame or a seal has another sum, or a frame is no transaction that can come there.
    /// `NoMemory`. At each of them the disk is handed back.
    pub fn attach(alloc: Global, disk: D) -> Result<TreeStore<D>, (D, TreeOpenFault)>
        ensures opened { IfOk result (λ s. IsOpened s (D.told disk) (D.told (store_disk s))) }
        ensures calm { IfOk result (λ s. (store_state D.faults s).faults ≡ D.faults disk) }
        ensures refused { IfErr result (λ e. IsUnopened e.1 (D.told disk) (D.told e.0)) }
        ensures cause { IfErr result (λ e. HasOpenCause e.1 (D.faults disk) (D.faults e.0) (D.last_failed e.0)) }
        ensures stop { IfErr result (λ e. LeftByOpening (D.told disk) (D.may_leave disk) (D.syncs disk) (D.syncs e.0) (D.may_leave e.0)) }
    {
        let mut journal = match Journal::attach(alloc, disk, b'T') {
            Ok(journal) => journal,
            Err((disk, fault)) => return Err((disk, open_fault(fault))),
        };
        match read_frames(alloc, &mut journal) {
            Ok((tree, fresh)) => Ok(TreeStore {
                alloc,
                journal,
                tree,
                fresh,
                loaded: None,
                down: false,
            }),
            Err(fault) => Err((journal.into_disk(), fault)),
        }
    }

    /// Whether the file holds no frame but those of znodes that are loaded.
    pub fn is_fresh(&self) -> bool
        ensures { result ≡ is_fresh self.now }
    {
        self.fresh
    }

    /// Gives the disk back.
    pub fn into_disk(self) -> D
        ensures { result ≡ store_disk self }
    {
        let TreeStore { journal, .. } = self;
        journal.into_disk()
    }

    /// Gives the disk back at the end of a process. The memory of the tree isn't given back piece by piece, which would take a tenth
    /// of the time of a short command.
    pub fn into_disk_at_exit(self) -> D
        ensures { result ≡ store_disk self }
    {
        let TreeStore { journal, tree, .. } = self;
        mem::forget(tree);
        journal.into_disk()
    }
}
