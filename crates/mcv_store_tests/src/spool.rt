//! Records in a file.

mod disk;
mod play;
mod rows;
mod stops;
