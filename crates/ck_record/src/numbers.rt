//! The numbers that stand for kinds and variants in a record's bytes.

pub const FREE: u8 = 0;

pub const COUNTERS: u8 = 1;

pub const FILESET: u8 = 2;

pub const NAME: u8 = 3;

pub const NODE: u8 = 4;

pub const EXTENT: u8 = 5;

pub const MARK: u8 = 6;

pub const ABSENT: u8 = 7;

/// Whether a node is a file or a directory.
pub const FILE: u8 = 0;

pub const DIRECTORY: u8 = 1;

/// Which kind of key is absent.
pub const NO_NAME: u8 = 1;

pub const NO_NODE: u8 = 2;

pub const NO_BLOCK: u8 = 3;

/// A fileset's flags.
pub const NODATA: u8 = 1;

pub const REMOVABLE: u8 = 2;

pub const GONE: u8 = 4;
