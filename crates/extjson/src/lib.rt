//! Values of BSON as JSON, and read back: canonical Extended JSON, with doubles and decimals by their bits.
#![tactic(auto)]

mod fault;
mod laws;
mod numbers;
mod parts;
mod plain;
mod reading;
mod wrapped;
mod wrapper;
mod writing;

pub use fault::ExtFault;
pub use laws::{
    trees_are_shallow, trees_are_wrapped, trees_read_back, wrapped_are_shallow,
    wrapped_are_well_formed, wrapped_once,
};
pub use plain::wrap_numbers;
pub use reading::value_of;
pub use writing::tree_of;
