//! Links over streams and over a device: what is received, what becomes of each reply, and how replies are written.

mod batches;
mod devices;
mod held_back;
mod interrupted;
mod narrow;
mod polled;
