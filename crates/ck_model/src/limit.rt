//! The limits that hold everywhere.

/// So many bytes make a block.
pub const BLOCK: u64 = 4096;

/// At most so many checkpoints are live at once.
pub const CHECKPOINT_LIMIT: u32 = 64;

/// A file's size, and each place in it, is at most this.
pub const FILE_LIMIT: u64 = 1_073_741_824;

/// A script has at most so many bytes.
pub const SCRIPT_LIMIT: usize = 16_777_216;
