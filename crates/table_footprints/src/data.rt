//! What a request is recorded with.

use holds::Paths;
use table_requests::{Pins, Work};

/// What a request is recorded with, and the paths for its ticket.
pub struct NewRequest {
    pub work: Work,
    pub pins: Pins,
    pub paths: Paths,
}
