//! Trials of the top calls: what a run leaves where a stream fails, or over volumes whose tracks were spoiled, and that paths find what
//! their volumes held. They stand here, so that no large crate is proved once more for them.
#![tactic(auto)]

#[cfg(test)]
mod histories;
#[cfg(test)]
mod reports;
