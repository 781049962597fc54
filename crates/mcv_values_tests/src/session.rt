//! Sessions, over a desk whose answers are given.

mod script;
mod served;
mod sessions;
