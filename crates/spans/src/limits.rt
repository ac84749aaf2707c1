//! How many seats a database has, and the greatest ring that a caller may name.
/// A database has at most so many seats.
pub const MAX_SEATS: u8 = 64;
/// A database is opened with a ring of at most so many rows. It has no effect, because a feed keeps no rows.
pub const MAX_RING: u32 = 65536;
