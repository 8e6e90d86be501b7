//! Worked archives through the demultiplexer: what no clause of its crate says.
#![tactic(auto)]

#[cfg(test)]
mod demultiplexer;
