//! The parts below a machine, each public call once: the table of tasks, references of cookies, access, the plan of a
//! `prctl`, forks and exits, the account of forced idle, and the order across siblings. So calls succeed if there is
//! memory, faults have their texts, and a few values typed by hand show that the clauses mean what a reader expects.
#![tactic(auto)]

#[cfg(test)]
mod offers;
#[cfg(test)]
mod parts;
