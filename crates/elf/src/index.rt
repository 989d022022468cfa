// The section indexes of symbols that stand for no section.
// Constants and no enum: the format's numbers are open, and a symbol may have any other.

pub const UNDEFINED: u16 = 0;

// the first of those that are reserved
pub const RESERVED: u16 = 0xff00;

pub const ABSOLUTE: u16 = 0xfff1;

pub const COMMON: u16 = 0xfff2;
