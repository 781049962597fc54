//! What a proxy has counted, and the text in which Prometheus reads it.
//!
//! A `Snapshot` is what has been counted up to one moment; `metrics_text` is its text in Prometheus' format, version
//! 0.0.4. A `Metric` is one family of that text: its name, its help and its kind stand in one place each.
#![tactic(auto)]

mod metric;
mod sample;
mod snapshot;
mod text;

pub use metric::{ClientMetric, HubMetric, Kind, Metric, ServerMetric, SpoolMetric, WordMetric};
pub use snapshot::{
    ClientCounts, HubCounts, ServerCounts, Snapshot, SpoolCounts, WordCount, WordCounts,
};
pub use text::{CONTENT_TYPE, metrics_text};
