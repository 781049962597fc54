//! The tokens of connections in a poll.

ghost use Rattle.std.specs.Prelude.{◌≡◌, ◌*◌, ◌+◌, ◌^◌, ◌<◌, ◌≤◌, ℕ, IfSome, MatchOption, Some};
ghost use Rattle.mcv_poll.specs.Tokens.{HasNumber, HasToken, IsLine, at_hub};

use mcv_base::ServerId;
use mcv_loop::Source;

/// The token of the listener.
pub(crate) const LISTENER: usize = 0;

/// The token of the waker.
pub(crate) const WAKER: usize = 1;

/// The first token of a connection to a server. Those to clients come behind all of them.
const FIRST: usize = 2;

/// How many connections to servers there are, of which each hub has one to each server.
#[derive(Clone, Copy)]
pub(crate) struct Tokens {
    pub servers: usize,
    pub lines: usize,
}

/// A hub and a server.
#[derive(Clone, Copy)]
struct HubServer {
    hub: usize,
    server: ServerId,
}

impl Tokens {
    ghost use Rattle.mcv_base.specs.declared.request.ServerId.{ServerId};
    ghost use Rattle.mcv_loop.specs.declared.sources.Source.{Source};

    /// Where so many hubs have a connection to each of so many servers; None where these are too many.
    pub(crate) fn new(hubs: usize, servers: usize) -> Option<Tokens>
        ensures { MatchOption result (2 ^ 64 ≤ hubs * servers) (λ t. (t.servers ≡ servers) × (t.lines ≡ hubs * servers)) }
    {
        let lines = hubs.checked_mul(servers)?;
        Some(Tokens { servers, lines })
    }

    /// Where the connection of a hub to a server is among all. None where there is no such hub or server.
    pub(crate) fn line_of(self, hub: usize, server: ServerId) -> Option<usize>
        ensures some { IfSome result (λ line. IsLine self hub server line) }
        ensures none { (line : ℕ) → IsLine self hub server line → result ≡ Some line }
    {
        let server = server.0 as usize;
        if server >= self.servers {
            return None;
        }
        let line = hub.checked_mul(self.servers)?.checked_add(server)?;
        if line < self.lines { Some(line) } else { None }
    }

    /// The token of a connection. None where there is no such hub or server.
    pub(crate) fn token_of(self, source: Source) -> Option<usize>
        ensures some { IfSome result (λ token. HasToken self source token) }
        ensures none { (token : ℕ) → HasToken self source token → token < 2 ^ 64 → result ≡ Some token }
    {
        let number = match source {
            Source::Client(number) => self.lines.checked_add(number)?,
            Source::Server { hub, server } => self.line_of(hub, server)?,
        };
        number.checked_add(FIRST)
    }

    /// Whose connection has this place among those to all servers. None where there is no such place.
    fn server_at(self, line: usize) -> Option<HubServer>
        ensures some { IfSome result (λ at. IsLine self at.hub at.server line) }
        ensures alone { (hub : ℕ) (server : ServerId) → IsLine self hub server line → result ≡ Some (at_hub hub server) }
    {
        if line >= self.lines || self.servers == 0 {
            return None;
        }
        let server = line % self.servers;
        if server > u32::MAX as usize {
            return None;
        }
        Some(HubServer {
            hub: line / self.servers,
            server: ServerId(server as u32),
        })
    }

    /// The connection of a number. None where it is none's.
    fn source_at(self, number: usize) -> Option<Source>
        ensures some { IfSome result (λ source. HasNumber self source number) }
        ensures alone { (source : Source) → HasNumber self source number → result ≡ Some source }
    {
        if number >= self.lines {
            return Some(Source::Client(number - self.lines));
        }
        let HubServer { hub, server } = self.server_at(number)?;
        Some(Source::Server { hub, server })
    }

    /// The connection of a token. None where it is none's.
    pub(crate) fn source_of(self, token: usize) -> Option<Source>
        ensures some { IfSome result (λ source. HasToken self source token) }
        ensures alone { (source : Source) → HasToken self source token → result ≡ Some source }
    {
        self.source_at(token.checked_sub(FIRST)?)
    }
}
