//! Class words and their members.

mod listing;
mod words;
