//! An ordered tree of small height, whose nodes are reserved before they are used. The run queues of a
//! sibling stand on it.
#![tactic(auto)]

mod key;
mod movers;
mod order;
mod rank;
mod recent;
mod renewal;
mod tree;

pub use key::Key;
pub use movers::Movers;
pub use order::{Closed, OrderTree};
pub use rank::RankTree;
pub use recent::RecentTree;
pub use renewal::Renewal;
