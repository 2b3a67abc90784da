//! Tests of the events of several controllers, and of what is printed for them.
#![tactic(auto)]

#[cfg(test)]
mod events;
#[cfg(test)]
mod failures;
#[cfg(test)]
mod replies;
