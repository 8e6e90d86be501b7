//! Worked paths and places, and changes of documents at them.
#![tactic(auto)]

#[cfg(test)]
mod places;
