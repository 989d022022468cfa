// The flags of a section that a rule names.
// Constants and no type of sets: the format's flags are open, and a header may have any others.

pub const WRITE: u64 = 0x1;

pub const ALLOCATE: u64 = 0x2;

pub const MERGE: u64 = 0x10;

pub const LINK_ORDER: u64 = 0x80;

pub const GROUP: u64 = 0x200;

pub const THREAD_LOCAL: u64 = 0x400;

pub const RETAIN: u64 = 0x200000;
