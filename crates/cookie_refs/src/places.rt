//! Where to look for a cookie first. It is apart since nothing that is promised rests on it: a wrong index costs a
//! search, and no more.

use cs_types::Cookie;

/// How many indices are noted, a count. Cookies that differ by a multiple of it share one.
const PLACES: usize = 1024;

/// The indices of cookies, as they were made or found last. They are noted anew when those that ended are taken out.
#[derive(Drop)]
pub(crate) struct Places {
    noted: [u32; PLACES],
}

impl Places {
    /// No index but 0.
    pub fn none() -> Places {
        Places { noted: [0; PLACES] }
    }

    /// The index at which to look for the cookie.
    pub fn of(&self, cookie: Cookie) -> usize {
        self.noted[cookie as usize % PLACES] as usize
    }

    /// Notes the index of the cookie.
    pub fn note(&mut self, cookie: Cookie, index: usize) {
        if let Ok(index) = u32::try_from(index) {
            self.noted[cookie as usize % PLACES] = index;
        }
    }
}
