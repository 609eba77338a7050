//! Trials of copies: a mirror over a link of which puts fail, the far volume beside the near device after each copy; and copies of a
//! device whose volume holds something before its first event.
#![tactic(auto)]

#[cfg(test)]
mod held;
#[cfg(test)]
mod mirrors;
