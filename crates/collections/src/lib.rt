//! Collections that the parts of a table are made of: a hash map in which removals and insertions lose no room, and
//! children that are linked beside the values of a slab. Also the sum over everything that a look-up finds, as
//! definitions and lemmas only.
#![tactic(auto)]

pub mod children;
pub mod steady_map;
