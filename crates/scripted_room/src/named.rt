//! The name of a run. Of a value that a lock hands back only its type is known, so the type says which
//! scenario is played.

ghost use Rattle.std.specs.Prelude.{[]};
ghost use Rattle.cs_types.specs.Room.{Opening};

use std::marker::Brand;

/// Which scenario is played, and with how many guards. Each run picks it.
pub trait Named {
    /// What the room of the run began with.
    ghost opening: { Opening };
}

impl Named for Brand {
    ghost opening = { record {
      scenario = record {
        version = 1;
        siblings = 1;
        task_limit = 1;
        cookie_limit = 1;
        user_top = 8192;
        tasks = [];
        teaches = [];
        steps = [];
      };
      guards = 0;
    } };
}
