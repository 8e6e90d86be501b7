//! Worked lists in an order.
#![tactic(auto)]

#[cfg(test)]
mod lists;
