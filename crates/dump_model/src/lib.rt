//! What a dump writes: the bytes of its steps. Definitions alone.
#![tactic(auto)]
