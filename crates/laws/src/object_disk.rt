//! The calls of a system below an open folder, by objects, which may have several names; and such a system as a disk by paths, as long as
//! each object has one name.

mod objects;
mod one_file;
mod one_file_disk;
mod one_name;

pub use objects::ObjectDisk;
pub use one_file::{FileHandle, OneFile};
pub use one_file_disk::new_file_disk;
pub use one_name::OneName;
