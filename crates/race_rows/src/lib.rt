//! Races of few steps, and that of a host of two guests. They show that workers run beside each other, and that each
//! makes its steps itself. What every order has in common is compared, never an order.
#![tactic(auto)]

#[cfg(test)]
mod host;
#[cfg(test)]
mod races;
