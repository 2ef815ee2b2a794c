//! What a turn answers.

use cs_types::Reply;

/// What became of an actor's turn.
#[derive(Clone, Copy)]
pub enum Turn {
    /// The actor's next step was made, and this is the room's reply to it.
    Made(Reply),
    /// The actor has made its whole script, or has none. Nothing changed.
    Finished,
}
