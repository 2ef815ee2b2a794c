//! What is shared between threads: passes of the ticket lock, and turns under a mutex. They show that calls answer, and
//! that programs which make threads of their own may call the lock. What every order has in common is compared, never
//! an order.
#![tactic(auto)]

#[cfg(test)]
mod passes;
