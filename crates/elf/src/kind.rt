// The types of sections that a rule names.
// Constants and no enum: the format's numbers are open, and a header may have any other.

// no section
pub const NULL: u32 = 0;

// content to which the program gives the meaning
pub const PROGRAM: u32 = 1;

pub const SYMBOL_TABLE: u32 = 2;

pub const STRING_TABLE: u32 = 3;

pub const RELOCATIONS: u32 = 4;

// room in memory, and nothing in the file
pub const NO_BITS: u32 = 8;

pub const RELOCATIONS_WITHOUT_ADDENDS: u32 = 9;

pub const INITIALIZERS: u32 = 14;

pub const FINALIZERS: u32 = 15;

pub const EARLY_INITIALIZERS: u32 = 16;

pub const GROUP: u32 = 17;

// the sections of symbols whose own field is too narrow for the number
pub const EXTENDED_INDEXES: u32 = 18;

pub const ADDRESS_SIGNIFICANCE: u32 = 0x6fff4c03;
