//! Worked schedules, lines that are none of a schedule, a worked drill, and plain documents.
#![tactic(auto)]

#[cfg(test)]
mod drills;
#[cfg(test)]
mod faults;
#[cfg(test)]
mod lines;
#[cfg(test)]
mod plain;
