//! The limits of a migration. Each stands once, here, with its unit; code, definitions and messages cite it.
ghost use Rattle.std.specs.Prelude.{◌≡◌};
ghost use Rattle.kz_types.specs.Limits.{number_of_limit};

/// The most bytes of a path.
pub const MAX_PATH_BYTES: usize = 1024;
/// The most bytes of a znode's data: ZooKeeper's default `jute.maxbuffer`.
pub const MAX_BODY_BYTES: usize = 1_048_575;
/// The most znodes of the migrated area, and the most of all others but the root.
pub const MAX_ZNODES: usize = 200_000;
/// The greatest data version of a znode.
pub const MAX_VERSION: i32 = 2_147_483_647;
/// The most bytes of all rendered bodies of a metadata image.
pub const MAX_BODIES_BYTES: usize = 67_108_864;
/// The most records of a log after its base.
pub const MAX_RECORDS: usize = 1_000_000;
/// The most records of one change.
pub const MAX_CHANGE_RECORDS: usize = 1000;
/// The most controllers that a quorum declares.
pub const MAX_CONTROLLERS: usize = 9;
/// The most bytes of a line of the script, without its end.
pub const MAX_LINE_BYTES: usize = 2_097_152;
/// The most bytes of the whole input.
pub const MAX_INPUT_BYTES: u64 = 4_294_967_296;
/// The most bytes of a store's file.
pub const MAX_FILE_BYTES: u64 = 2_147_483_647;
/// The most changes of a script that is generated.
pub const MAX_GENERATED: u64 = 100_000;
/// The greatest KRaft epoch.
pub const MAX_EPOCH: i32 = 2_147_483_647;
/// The greatest zxid of a tree, and the greatest offset of a log.
pub const MAX_LONG: i64 = 9_223_372_036_854_775_807;
/// The greatest number of a canonical decimal: of ids, epochs and counts.
pub const MAX_NUMBER: u64 = 2_147_483_647;
/// The most operations of one write of a driver, beside the check of its claim and the offset that it records.
pub const MAX_CHUNK: usize = 64;
/// The most bytes of these operations, each counted with [`OP_BYTES`] more; a larger operation is written alone.
pub const MAX_CHUNK_BYTES: usize = 1_048_576;
/// What each operation of a write counts beside the bytes of its path and of its body.
pub const OP_BYTES: usize = 32;
/// The most records of one append of a migration.
pub const MAX_APPEND_RECORDS: usize = 1000;
/// The most znodes of one scan of a driver.
pub const MAX_SCAN_ROWS: usize = 256;

/// A limit by what it counts. Replies, refusals and statuses name it by its number.
#[derive(Clone, Copy)]
pub enum Limit {
    /// [`MAX_PATH_BYTES`]
    PathBytes,
    /// [`MAX_BODY_BYTES`]
    BodyBytes,
    /// [`MAX_ZNODES`] in the migrated area
    MigratedZnodes,
    /// [`MAX_ZNODES`] outside it
    OtherZnodes,
    /// [`MAX_VERSION`]
    Version,
    /// [`MAX_BODIES_BYTES`]
    BodiesBytes,
    /// [`MAX_RECORDS`]
    Records,
    /// [`MAX_CHANGE_RECORDS`]
    ChangeRecords,
    /// [`MAX_CONTROLLERS`]
    Controllers,
    /// [`MAX_LINE_BYTES`]
    LineBytes,
    /// [`MAX_INPUT_BYTES`]
    InputBytes,
    /// [`MAX_FILE_BYTES`] of the tree's file
    TreeFileBytes,
    /// [`MAX_FILE_BYTES`] of the log's file
    LogFileBytes,
    /// [`MAX_GENERATED`]
    Generated,
    /// [`MAX_EPOCH`]
    Epoch,
    /// [`MAX_LONG`]
    Long,
}

impl Limit {
    /// The number of a limit in replies, refusals and statuses.
    pub fn number(self) -> u8
        ensures { result ≡ number_of_limit self }
    {
        match self {
            Limit::PathBytes => 1,
            Limit::BodyBytes => 2,
            Limit::MigratedZnodes => 3,
            Limit::OtherZnodes => 4,
            Limit::Version => 5,
            Limit::BodiesBytes => 6,
            Limit::Records => 7,
            Limit::ChangeRecords => 8,
            Limit::Controllers => 9,
            Limit::LineBytes => 10,
            Limit::InputBytes => 11,
            Limit::TreeFileBytes => 12,
            Limit::LogFileBytes => 13,
            Limit::Generated => 14,
            Limit::Epoch => 15,
            Limit::Long => 17,
        }
    }
}
