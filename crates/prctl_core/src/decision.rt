//! What a plan says.

use cs_types::{Cookie, Pid, Reply};

/// The tasks whose cookie is set.
#[derive(Clone, Copy)]
pub enum Target {
    /// None.
    Nobody,
    /// The task with the pid.
    One(Pid),
    /// The members of the thread group.
    Threads(Pid),
    /// The members of the process group.
    Process(u32),
}

/// A call that succeeds.
#[derive(Clone, Copy)]
pub struct Decision {
    /// Whose cookie is set.
    pub to: Target,
    /// The cookie that they get, 0 for none. The plan holds one reference to it.
    pub cookie: Cookie,
    /// The answer: `Zero`, or `Value` for a GET, which sets nobody's cookie.
    pub reply: Reply,
}

/// The outcome of a call.
#[derive(Clone, Copy)]
pub enum Planned {
    /// It succeeds.
    Go(Decision),
    /// It is refused: with `NoCaller`, or with an error.
    Answer(Reply),
}
