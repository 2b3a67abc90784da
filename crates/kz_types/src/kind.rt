//! What a path is to the migration.

/// The kind of a path of ZooKeeper's tree.
#[derive(Clone, Copy, Debug, PartialEq, Eq)]
pub enum Kind {
    /// It holds an entity that is migrated.
    Entity,
    /// It is migrated only as a parent of entities.
    Scaffold,
    /// It is at or below a migrated root and neither of these.
    Stray,
    /// It is a parent of migrated roots.
    Base,
    /// It is one of the znodes by which controllers find each other and record the migration.
    Control,
    /// It is below a control znode.
    Reserved,
    /// Any other path.
    Outside,
}
