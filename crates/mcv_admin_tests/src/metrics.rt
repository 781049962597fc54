//! The text of what is counted, line by line.

use mcv_metrics::{
    ClientCounts, HubCounts, ServerCounts, Snapshot, SpoolCounts, WordCount, WordCounts,
    metrics_text,
};
use std::alloc::Global;
use std::test::Fail;

/// What a reader of the page on the format would write by hand.
const WANTED: &str = "# HELP mcv_calls_total Calls that clients asked for, by operation.
# TYPE mcv_calls_total counter
mcv_calls_total{operation=\"get\"} 6
mcv_calls_total{operation=\"delete\"} 2
# HELP mcv_replies_total Replies to these calls, by outcome.
# TYPE mcv_replies_total counter
mcv_replies_total{outcome=\"miss\"} 8
# HELP mcv_refusals_total Requests that were refused, by cause.
# TYPE mcv_refusals_total counter
mcv_refusals_total{cause=\"busy\"} 1
# HELP mcv_legs_sent_total Legs begun, by server.
# TYPE mcv_legs_sent_total counter
mcv_legs_sent_total{server=\"a:11211\"} 70
mcv_legs_sent_total{server=\"[::1]:11211\"} 0
# HELP mcv_legs_lost_total Legs that got no reply, by server.
# TYPE mcv_legs_lost_total counter
mcv_legs_lost_total{server=\"a:11211\"} 1
mcv_legs_lost_total{server=\"[::1]:11211\"} 0
# HELP mcv_legs_waiting Legs that waited to be sent when they were last counted, by server.
# TYPE mcv_legs_waiting gauge
mcv_legs_waiting{server=\"a:11211\"} 19
mcv_legs_waiting{server=\"[::1]:11211\"} 0
# HELP mcv_server_marked Hubs that have marked the server as down, by server.
# TYPE mcv_server_marked gauge
mcv_server_marked{server=\"a:11211\"} 2
mcv_server_marked{server=\"[::1]:11211\"} 0
# HELP mcv_records_replayed_total Deletes of the spool that the server has performed, by server.
# TYPE mcv_records_replayed_total counter
mcv_records_replayed_total{server=\"a:11211\"} 9
mcv_records_replayed_total{server=\"[::1]:11211\"} 0
# HELP mcv_records_spooled_total Deletes that were written into the spool.
# TYPE mcv_records_spooled_total counter
mcv_records_spooled_total 12
# HELP mcv_records_pending Deletes in the spool that their servers haven't performed.
# TYPE mcv_records_pending gauge
mcv_records_pending 4
# HELP mcv_spool_slots Slots of the spool's file that are used, of 1000000.
# TYPE mcv_spool_slots gauge
mcv_spool_slots 15
# HELP mcv_spool_refusing Hubs whose records the spool refuses.
# TYPE mcv_spool_refusing gauge
mcv_spool_refusing 3
# HELP mcv_chapter_entries Entries that the chapter has or may get, by hub.
# TYPE mcv_chapter_entries gauge
mcv_chapter_entries{hub=\"0\"} 100
mcv_chapter_entries{hub=\"1\"} 0
# HELP mcv_chapter_bytes Bytes that the chapter holds, by hub.
# TYPE mcv_chapter_bytes gauge
mcv_chapter_bytes{hub=\"0\"} 12800
mcv_chapter_bytes{hub=\"1\"} 0
# HELP mcv_chapters_turned_total Chapters that have ended, by hub.
# TYPE mcv_chapters_turned_total counter
mcv_chapters_turned_total{hub=\"0\"} 3
mcv_chapters_turned_total{hub=\"1\"} 0
# HELP mcv_clients Clients that are connected.
# TYPE mcv_clients gauge
mcv_clients 4
# HELP mcv_clients_accepted_total Clients that were accepted.
# TYPE mcv_clients_accepted_total counter
mcv_clients_accepted_total 11
# HELP mcv_clients_refused_total Clients that were refused, since there were too many.
# TYPE mcv_clients_refused_total counter
mcv_clients_refused_total 5
# HELP mcv_uptime_seconds Seconds since the start.
# TYPE mcv_uptime_seconds gauge
mcv_uptime_seconds 86400
# HELP mcv_build_info 1, by the version of the program.
# TYPE mcv_build_info gauge
mcv_build_info{version=\"1\"} 1
";

/// A server of which nothing was counted.
fn unasked(alloc: Global, server: &str) -> Result<ServerCounts, Fail> {
    Ok(ServerCounts {
        server: String::from_str(alloc, server)?,
        sent: 0,
        lost: 0,
        waiting: 0,
        marked: 0,
        replayed: 0,
    })
}

/// A word that was counted so often.
fn word(alloc: Global, word: &str, number: u64) -> Result<WordCount, Fail> {
    Ok(WordCount {
        word: String::from_str(alloc, word)?,
        number,
    })
}

fn words(alloc: Global) -> Result<WordCounts, Fail> {
    let mut calls = Vec::new(alloc);
    calls.push(word(alloc, "get", 6)?)?;
    calls.push(word(alloc, "delete", 2)?)?;
    let mut replies = Vec::new(alloc);
    replies.push(word(alloc, "miss", 8)?)?;
    let mut refusals = Vec::new(alloc);
    refusals.push(word(alloc, "busy", 1)?)?;
    Ok(WordCounts {
        calls,
        replies,
        refusals,
    })
}

/// A hub that is in its fourth chapter, and one that nobody has asked.
fn hubs(alloc: Global) -> Result<Vec<HubCounts>, Fail> {
    let mut hubs = Vec::new(alloc);
    hubs.push(HubCounts {
        hub: 0,
        entries: 100,
        bytes: 12_800,
        turned: 3,
    })?;
    hubs.push(HubCounts {
        hub: 1,
        entries: 0,
        bytes: 0,
        turned: 0,
    })?;
    Ok(hubs)
}

fn counts(alloc: Global) -> Result<Snapshot, Fail> {
    let mut servers = Vec::new(alloc);
    servers.push(ServerCounts {
        sent: 70,
        lost: 1,
        waiting: 19,
        marked: 2,
        replayed: 9,
        ..unasked(alloc, "a:11211")?
    })?;
    servers.push(unasked(alloc, "[::1]:11211")?)?;
    Ok(Snapshot {
        words: words(alloc)?,
        servers,
        spool: SpoolCounts {
            spooled: 12,
            pending: 4,
            slots: 15,
            refusing: 3,
        },
        hubs: hubs(alloc)?,
        clients: ClientCounts {
            connected: 4,
            accepted: 11,
            refused: 5,
        },
        uptime: 86_400,
        version: 1,
    })
}

#[test]
fn lines_are_as_the_format_has_them(rt: HostRuntime) -> Result<(), Fail> {
    let bytes = metrics_text(rt.alloc(), &counts(rt.alloc())?)?;
    let text = std::str::from_utf8(bytes.as_slice())?;
    assert_eq!(rt; text, WANTED);
    Ok(())
}
