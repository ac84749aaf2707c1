//! The checker's feeds that live (`book`, `record`, `place`), its protections, and the horizon that both hold back.
//!
//! 1. Both lists have the newest first, as the definitions say them.
//! 2. A number up to how many were opened without a record is that of a feed that was cancelled.
//! 3. What a feed keeps of the messages that it was told says at which place its next rows begin.
//!
//! ```text
//! open from 5                    told nothing           place: above 5        floor 5
//! poll 1, of rows 10 a, 20 b     told 10 a              place: at 10, a       floor 9, as another row of 10 may follow
//! poll 9, closed at 30           told 20 b, to 30       place: above 30       floor 30
//! cancel                                                                      none: it holds no horizon back
//! ```

pub mod book;
pub mod horizon;
pub mod place;
pub mod protections;
pub mod record;
