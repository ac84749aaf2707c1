//! Commands, replies, messages and events: the plain data that crosses the edge of the database.

mod commands;
mod events;
mod messages;
mod replies;

pub use commands::Cmd;
pub use events::Event;
pub use messages::{Message, Messages};
pub use replies::{Refusal, Reply, Rows};
