//! The limits of a site, each named once (docs/DEFINITIONS.md, "Limits").
//!
//! Code cites a limit by its name here, and a clause or a definition by the name in `specs/Limits`,
//! which has each number once more: a number that is changed at one of the two is refused. The limits
//! of names stand beside the names.
//! None of them may grow without a look at the lengths that rest on it: a journal's payload has room
//! for the largest record that these limits allow, and sums of them stay within 64 bits.

/// The most bytes of a file.
pub const FILE_LIMIT: u64 = 16_777_216;

/// The most files of a namespace.
pub const FILES_LIMIT: u64 = 65_536;

/// The most dumps.
pub const DUMPS_LIMIT: u64 = 64;

/// The most entries of bitfiles.
pub const ENTRIES_LIMIT: u64 = 262_144;

/// The last number of a change, the last counter of a bitfile identifier, and the greatest number of
/// a site. What counts to it still fits 64 bits, and its next number too.
pub const NUMBER_LIMIT: u64 = 9_223_372_036_854_775_807;

/// The greatest age and the longest hold, in seconds: some 136 years.
pub const AGE_LIMIT: u64 = 4_294_967_295;

/// The most bytes that a site may be configured to keep in files and dumps together.
pub const CAP_LIMIT: u64 = 268_435_456;

/// The most groups, which are numbered from 1.
pub const GROUPS_LIMIT: u8 = 4;

/// The fewest drives of a group: a move mounts two volumes.
pub const DRIVES_LEAST: u8 = 2;

/// The most drives of a group.
pub const DRIVES_LIMIT: u8 = 16;

/// The most volumes of a group.
pub const VOLUMES_LIMIT: usize = 16;

/// The smallest volume, in bytes.
pub const VOLUME_LEAST: u64 = 256;

/// The largest volume, in bytes.
pub const VOLUME_LIMIT: u64 = 67_108_864;

/// The most bytes of a group's volumes together.
pub const GROUP_SIZE_LIMIT: u64 = 268_435_456;

/// The shortest length of chunk that a group may be configured with.
pub const CHUNK_LEAST: u64 = 64;

/// The longest length of chunk that a group may be configured with.
pub const CHUNK_LIMIT: u64 = 4_194_304;

/// The greatest percentage of live bytes below which a volume is sparse.
pub const SPARSE_LIMIT: u64 = 100;

/// The newest format of volumes; the oldest is 1.
pub const FORMAT_LIMIT: u8 = 2;

/// The last epoch of a volume, which is not used again after it.
pub const EPOCH_LIMIT: u64 = 18_446_744_073_709_551_615;

/// The most workers for sessions.
pub const SESSIONS_LIMIT: u64 = 64;

/// The greatest weight of a file's age, and of its size, for space management.
pub const WEIGHT_LIMIT: u64 = 1_000_000;

/// The most jobs that wait in the queue of merges.
pub const JOBS_LIMIT: u64 = 16;

/// The most saved tables of a group.
pub const SAVES_LIMIT: u64 = 4;

/// The most bytes of a command's line before its LF, a carriage return counted.
pub const LINE_LIMIT: usize = 1_024;

/// The most bytes of a configuration's text.
pub const CONF_TEXT_LIMIT: usize = 65_536;

/// The most digits of a number in a command. So each fits 64 bits.
pub const DIGITS_LIMIT: usize = 19;
