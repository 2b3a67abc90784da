//! What is held of a tree's file while it is read.
use kz_tree::Tree;
use kz_types::Row;
use std::alloc::Global;

/// A load, as it stands in the frames so far.
#[derive(Drop)]
pub(crate) enum Loading {
    /// None has begun.
    Fresh,
    /// These znodes have come so far.
    UnderWay(Vec<Row>),
    /// No load frame may come any more.
    Over,
}

/// What the frames so far stand for.
#[derive(Drop)]
pub(crate) struct Held {
    pub(crate) tree: Tree,
    pub(crate) load: Loading,
}

impl Held {
    ghost use Rattle.std.specs.Prelude.{◌≡◌};
    ghost use Rattle.kz_spec_data.specs.TreeFile.{nothing_stored, is_fresh};
    ghost use Rattle.kz_tree_store.specs.Held.{load_of, stored};

    /// What no frame stands for.
    pub(crate) fn new(alloc: Global) -> Self
        ensures { stored result ≡ nothing_stored }
    {
        Held {
            tree: Tree::new(alloc),
            load: Loading::Fresh,
        }
    }

    /// The tree, and whether no frame stands in the file but those of znodes that are loaded.
    pub(crate) fn into_parts(self) -> (Tree, bool)
        ensures tree { result.0 ≡ self.tree }
        ensures fresh { result.1 ≡ is_fresh (load_of self.load) }
    {
        let Held { tree, load } = self;
        match load {
            Loading::Fresh => (tree, true),
            Loading::UnderWay(_) => (tree, true),
            Loading::Over => (tree, false),
        }
    }
}
