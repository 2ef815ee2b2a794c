//! The queues of a sibling, over their trees: weights and growth of virtual time, ranks, and tasks that come out of
//! each class queue, of the queue over all classes and of an ordered tree in the order that was worked out by hand.
#![tactic(auto)]

#[cfg(test)]
mod queues;
