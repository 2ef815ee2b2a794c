//! What is written: the line of an entry, put together with no sink.

mod deeds;
mod line;
mod places;
mod replies;

pub use line::Line;
