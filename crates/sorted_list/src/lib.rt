//! A list of elements in an order by which searches find them.
#![tactic(auto)]

mod chunk;
mod list;
mod parting;
mod seats;
mod spares;
mod walk;

pub use list::SortedList;
pub use walk::Walk;
