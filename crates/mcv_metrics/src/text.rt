//! The text of a snapshot.

ghost use Rattle.std.specs.List.{flat_map};
ghost use Rattle.std.specs.Prelude.{◌≡◌, ◌++◌, OnOk, IfOk, decimal};
ghost use Rattle.mcv_metrics.specs.Metrics.{metric_name};
ghost use Rattle.mcv_metrics.specs.Text.{family, hub_sample, labelled, metrics_text, samples, server_sample, word_sample};

use crate::metric::{ClientMetric, HubMetric, Metric, ServerMetric, SpoolMetric, WordMetric};
use crate::sample::{Label, push_head, push_labelled, push_plain};
use crate::snapshot::{HubCounts, ServerCounts, Snapshot, WordCount};
use itoa::Buffer;
use std::alloc::{AllocError, Global};

/// What a response says that its text is.
pub const CONTENT_TYPE: &str = "text/plain; version=0.0.4; charset=utf-8";

/// All families, in the order of the text.
const METRICS: [Metric; 20] = [
    Metric::Words(WordMetric::Calls),
    Metric::Words(WordMetric::Replies),
    Metric::Words(WordMetric::Refusals),
    Metric::Servers(ServerMetric::Sent),
    Metric::Servers(ServerMetric::Lost),
    Metric::Servers(ServerMetric::Waiting),
    Metric::Servers(ServerMetric::Marked),
    Metric::Servers(ServerMetric::Replayed),
    Metric::Spool(SpoolMetric::Spooled),
    Metric::Spool(SpoolMetric::Pending),
    Metric::Spool(SpoolMetric::Slots),
    Metric::Spool(SpoolMetric::Refusing),
    Metric::Hubs(HubMetric::Entries),
    Metric::Hubs(HubMetric::Bytes),
    Metric::Hubs(HubMetric::Turned),
    Metric::Clients(ClientMetric::Connected),
    Metric::Clients(ClientMetric::Accepted),
    Metric::Clients(ClientMetric::Refused),
    Metric::Uptime,
    Metric::Build,
];

#[tactic(auto, using(mcv_base::proofs::Texts::flat_map_step))]
fn push_words(text: &mut Vec<u8>, metric: WordMetric, words: &[WordCount]) -> Result<(), AllocError>
    ensures { OnOk result (text.new.items ≡ text.old.items ++ flat_map (word_sample metric) words.now) }
{
    for word in words {
        let label = Label {
            name: metric.label(),
            value: word.word.as_bytes(),
        };
        push_labelled(text, Metric::Words(metric), label, word.number)?;
    }
    Ok(())
}

#[tactic(auto, using(mcv_base::proofs::Texts::flat_map_step))]
fn push_servers(
    text: &mut Vec<u8>,
    metric: ServerMetric,
    servers: &[ServerCounts],
) -> Result<(), AllocError>
    ensures { OnOk result (text.new.items ≡ text.old.items ++ flat_map (server_sample metric) servers.now) }
{
    for server in servers {
        let label = Label {
            name: "server",
            value: server.server.as_bytes(),
        };
        push_labelled(text, Metric::Servers(metric), label, server.of(metric))?;
    }
    Ok(())
}

/// Adds a sample of which the label's value is a number. On an error part of it may be there.
fn push_numbered(
    text: &mut Vec<u8>,
    metric: Metric,
    name: &'static str,
    value: u64,
    number: u64,
) -> Result<(), AllocError>
    ensures { OnOk result (text.new.items ≡ text.old.items ++ labelled (metric_name metric) name.now (decimal value) number) }
{
    let mut buffer = Buffer::new();
    let label = Label {
        name,
        value: buffer.format(value).as_bytes(),
    };
    push_labelled(text, metric, label, number)
}

#[tactic(auto, using(mcv_base::proofs::Texts::flat_map_step))]
fn push_hubs(text: &mut Vec<u8>, metric: HubMetric, hubs: &[HubCounts]) -> Result<(), AllocError>
    ensures { OnOk result (text.new.items ≡ text.old.items ++ flat_map (hub_sample metric) hubs.now) }
{
    for hub in hubs {
        push_numbered(text, Metric::Hubs(metric), "hub", hub.hub, hub.of(metric))?;
    }
    Ok(())
}

/// Adds the samples of a family. On an error part of them may be there.
fn push_samples(text: &mut Vec<u8>, snapshot: &Snapshot, metric: Metric) -> Result<(), AllocError>
    ensures { OnOk result (text.new.items ≡ text.old.items ++ samples snapshot.now metric) }
{
    match metric {
        Metric::Words(of) => push_words(text, of, snapshot.words.of(of)),
        Metric::Servers(of) => push_servers(text, of, snapshot.servers.as_slice()),
        Metric::Spool(of) => push_plain(text, metric, snapshot.spool.of(of)),
        Metric::Hubs(of) => push_hubs(text, of, snapshot.hubs.as_slice()),
        Metric::Clients(of) => push_plain(text, metric, snapshot.clients.of(of)),
        Metric::Uptime => push_plain(text, metric, snapshot.uptime),
        Metric::Build => push_numbered(text, metric, "version", snapshot.version, 1),
    }
}

#[tactic(auto, using(mcv_base::proofs::Texts::flat_map_step))]
fn push_families(
    text: &mut Vec<u8>,
    snapshot: &Snapshot,
    metrics: &[Metric],
) -> Result<(), AllocError>
    ensures { OnOk result (text.new.items ≡ text.old.items ++ flat_map (family snapshot.now) metrics.now) }
{
    for metric in metrics {
        push_head(text, *metric)?;
        push_samples(text, snapshot, *metric)?;
    }
    Ok(())
}

/// The text of what was counted.
pub fn metrics_text(alloc: Global, snapshot: &Snapshot) -> Result<Vec<u8>, AllocError>
    ensures { IfOk result (λ text. text.items ≡ metrics_text snapshot.now) }
{
    let mut text = Vec::new(alloc);
    push_families(&mut text, snapshot, &METRICS)?;
    Ok(text)
}
