//! What a database is opened with.

/// How many callers a database has, and where positions begin.
#[derive(Clone, Copy, Debug, PartialEq, Eq)]
pub struct Config {
    /// The number of seats, 1 to 64.
    pub seats: u32,
    /// 1 to 65536, without effect: a feed once held so many rows.
    pub ring: u32,
    /// The position of the first event. The last one has position 18446744073709551614.
    pub first: u64,
}

/// Why a database was not opened, tested in this order.
#[derive(Clone, Copy, Debug, PartialEq, Eq)]
pub enum OpenError {
    /// There are to be no seats, or more than 64.
    SeatCount = 1,
    /// The ring is to have no place, or more than 65536.
    RingSize,
    /// A growth of memory was refused.
    NoMemory,
}
