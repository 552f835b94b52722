//! The limits of models and histories. Definitions, code and proofs share these constants.

/// The most objects of a model.
pub const MOST_OBJECTS: usize = 256;

/// The most classes of a model.
pub const MOST_CLASSES: usize = 16;

/// The most bytes of a name; the least is 1.
pub const LONGEST_NAME: usize = 32;

/// The largest number of a transaction; the least is 1.
pub const LAST_TXN: u16 = 16_383;

/// The length of a table indexed by transaction number: one entry for each number, and one for 0.
pub const TABLE_SIZE: usize = LAST_TXN as usize + 1;

/// The most events of a history.
pub const MOST_EVENTS: usize = 65_536;

/// The most edges in force at once.
pub const MOST_EDGES: usize = 16_384;
