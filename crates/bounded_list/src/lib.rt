//! A list with room for a fixed number of items. A call that makes one takes memory for them all, and no other call
//! takes any: there is none that could, so what keeps its items in such a list needs no memory once it is made.

#![tactic(auto)]

mod list;
mod slices;

pub use list::BoundedList;
