//! Verdicts on configurations, and on certificates of them.

mod refused;
mod verdicts;
