//! Laws that no program calls: over whole runs of a table (`table_runs`); over which calls of a directory come to the same in either order
//! (`tree_order`); and that a disk whose files may have several names is a disk by paths until a LINK is granted (`object_disk`).
#![tactic(auto)]

pub mod object_disk;
pub mod table_runs;
pub mod tree_order;
