// Where the sections of the table start, and its length.
pub const WORDS: usize = 1352;

pub const PERMITTED: usize = 64;

pub const ASSIGNED: usize = 72;

pub const GRANTED: usize = 136;

pub const OWNER: usize = 648;

pub const ACTIVE: usize = 680;

pub const HOLDS: usize = 712;

pub const SETS: usize = 968;

pub const DIRECT: usize = 1032;

pub const MASKS: usize = 1096;
