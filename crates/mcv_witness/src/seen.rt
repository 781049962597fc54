//! What is seen of a route at some outcomes: its reply, and whether a server was sent a leg that counts.

ghost use Rattle.std.specs.Prelude.{◌≡◌};
ghost use Rattle.mcv_base.specs.Reply.{is_error, is_good, is_missed};
ghost use Rattle.mcv_witness.specs.Walk.{at_once, goes_on, joined_reply, joined_seen, reply_passes, worse_reply};

use mcv_base::Outcome;

/// A reply's outcome, and whether a hit of the leaf that is looked for is among the replies.
#[derive(Clone, Copy)]
pub struct SeenReply {
    pub outcome: Outcome,
    pub is_hit: bool,
}

/// The reply, if there is one, and whether the server that is looked for was sent a leg that counts.
#[derive(Clone, Copy)]
pub struct Seen {
    pub reply: Option<SeenReply>,
    pub sent: bool,
}

/// How a child that is asked next changes the reply, and when it is asked.
#[derive(Clone, Copy, PartialEq, Eq)]
pub enum Join {
    /// At once; the worse reply.
    Both,
    /// At once; the reply stays.
    Beside,
    /// After an error; its reply.
    OnError,
    /// After a reply that isn't a hit; its reply.
    OnMiss,
}

impl Seen {
    /// A reply without a leg.
    pub fn at_once(outcome: Outcome) -> Seen
        ensures { result ≡ at_once outcome }
    {
        let reply = SeenReply {
            outcome,
            is_hit: false,
        };
        Seen {
            reply: Some(reply),
            sent: false,
        }
    }
}

impl Join {
    /// Whether the next child is asked after this reply.
    pub fn goes_on(self, reply: Option<SeenReply>) -> bool
        ensures { result ≡ goes_on self reply }
    {
        match self {
            Join::Both => true,
            Join::Beside => true,
            Join::OnError => is_failed(reply),
            Join::OnMiss => is_missed(reply),
        }
    }

    /// What is seen of both.
    pub fn joined(self, first: Seen, second: Seen) -> Seen
        ensures { result ≡ joined_seen self first second }
    {
        let reply = self.joined_reply(first.reply, second.reply);
        Seen {
            reply,
            sent: first.sent || second.sent,
        }
    }

    fn joined_reply(self, first: Option<SeenReply>, second: Option<SeenReply>) -> Option<SeenReply>
        ensures { result ≡ joined_reply self first second }
    {
        match self {
            Join::Both => worse(first, second),
            Join::Beside => first,
            Join::OnError => second,
            Join::OnMiss => second,
        }
    }
}

/// Whether there is a hit.
pub fn is_good(reply: Option<SeenReply>) -> bool
    ensures { result ≡ reply_passes is_good reply }
{
    match reply {
        None => false,
        Some(seen) => seen.outcome.is_good(),
    }
}

fn is_failed(reply: Option<SeenReply>) -> bool
    ensures { result ≡ reply_passes is_error reply }
{
    match reply {
        None => false,
        Some(seen) => matches!(seen.outcome, Outcome::Error),
    }
}

fn is_missed(reply: Option<SeenReply>) -> bool
    ensures { result ≡ reply_passes is_missed reply }
{
    match reply {
        None => false,
        Some(seen) => !seen.outcome.is_good(),
    }
}

/// The worse of two replies, once both are there.
fn worse(first: Option<SeenReply>, second: Option<SeenReply>) -> Option<SeenReply>
    ensures { result ≡ worse_reply first second }
{
    let (first, second) = (first?, second?);
    if first.outcome.badness() < second.outcome.badness() {
        return Some(second);
    }
    if second.outcome.badness() < first.outcome.badness() {
        return Some(first);
    }
    Some(SeenReply {
        outcome: first.outcome,
        is_hit: first.is_hit || second.is_hit,
    })
}
