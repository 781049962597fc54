//! Server texts: `host:port`, cut at the last colon.
//!
//! `is_server` is the test, and `server_law` says in other words which texts pass it. A `ServerText` holds one that does.

ghost use Rattle.std.specs.Prelude.{◌≡◌, ◌<◌, ◌≤◌, ◌↔◌, ℕ, List, length, IfSome, IsTrue, MatchOption, false, true};
ghost use Rattle.std.specs.List.{list_all};
ghost use Rattle.std.specs.Str.{bytes_eq};
ghost use Rattle.std.specs.Cmp.{partial_equiv_from_equiv};
ghost use Rattle.std.specs.Cmp.Lexicographic.{nat_list_eq_equiv};
ghost use Rattle.std.specs.Char.{is_ascii_digit, is_ascii_graphic};
ghost use Rattle.mcv_base.specs.Server.{colon, number, is_port, is_host, is_server, last_below, IsServer};

use arrayvec::ArrayVec;
use std::marker::Model;

/// The text of a server, at most 261 bytes, held in place. Clauses see its bytes.
#[derive(Debug, Drop)]
pub struct ServerText {
    text: ArrayVec<u8, 261>,
}

impl Model for ServerText {
    ghost use Rattle.std.specs.Prelude.{List, ℕ, IsTrue};
    ghost use Rattle.std.specs.Coded.{coded_ℕ, coded_list};
    ghost use Rattle.mcv_base.specs.Server.{is_server};

    ghost Value = { List ℕ };

    ghost coded = { coded_list coded_ℕ };

    ghost view = { λ s. s.text.items };

    ghost invariant = { λ s. IsTrue (is_server s.text.items) };
}

impl ServerText {
    /// The server of these bytes, if they are a host, a colon and a port.
    pub fn of(bytes: &[u8]) -> Option<ServerText>
        ensures { MatchOption result (is_server bytes.now ≡ false) (λ server. server ≡ bytes.now) }
    {
        if is_server(bytes) {
            Some(ServerText { text: held(bytes) })
        } else {
            None
        }
    }

    /// Its bytes.
    pub fn as_bytes(&self) -> &[u8]
        ensures value { result.now ≡ self.now }
        ensures valid { IsTrue (is_server self.now) }
        ensures short { length self.now ≤ 261 }
    {
        self.text.as_slice()
    }

    /// A second value of the same text. It takes no memory.
    pub fn copied(&self) -> ServerText
        ensures { result ≡ self.now }
    {
        ServerText {
            text: held(self.text.as_slice()),
        }
    }
}

impl PartialEq for ServerText {
    ghost eq = { bytes_eq };

    ghost laws = { partial_equiv_from_equiv nat_list_eq_equiv };

    fn eq(&self, other: &ServerText) -> bool {
        self.text.as_slice() == other.text.as_slice()
    }
}

impl Eq for ServerText {
    ghost laws = { nat_list_eq_equiv };
}

fn held(bytes: &[u8]) -> ArrayVec<u8, 261>
    requires { length bytes.now ≤ 261 }
    ensures { result.items ≡ bytes.now }
{
    let mut held = ArrayVec::new();
    match held.try_extend_from_slice(bytes) {
        Ok(()) => held,
        Err(_) => unreachable!(),
    }
}

/// Whether a text is a host of 1 to 255 bytes, a colon and a port from 1 to 65535.
#[tactic(auto, unfolding(crate::specs::Server::is_server))]
pub fn is_server(text: &[u8]) -> bool
    ensures exact { result ≡ is_server text.now }
{
    match last_colon(text) {
        Some(place) => is_host(&text[..place]) && is_port(&text[place + 1..]),
        None => false,
    }
}

/// The place of the last colon.
fn last_colon(bytes: &[u8]) -> Option<usize>
    ensures place { result ≡ last_below colon bytes.now (length bytes.now) }
    ensures within { IfSome result (λ i. i < length bytes.now) }
{
    for place in (0..bytes.len()).rev() {
        if bytes[place] == b':' {
            return Some(place);
        }
    }
    None
}

#[tactic(auto, unfolding(crate::specs::Server::is_host))]
fn is_host(host: &[u8]) -> bool
    ensures { result ≡ is_host host.now }
{
    if host.is_empty() || host.len() > 255 {
        return false;
    }
    if !all_graphic(host) {
        return false;
    }
    if !host.contains(&b':') {
        return true;
    }
    if host[0] != b'[' {
        return false;
    }
    host[host.len() - 1] == b']'
}

#[tactic(auto, unfolding(crate::specs::Server::is_port))]
fn is_port(port: &[u8]) -> bool
    ensures { result ≡ is_port port.now }
{
    if port.is_empty() || port.len() > 5 {
        return false;
    }
    if !all_digits(port) {
        return false;
    }
    if port[0] == b'0' {
        return false;
    }
    number(port) < 65536
}

fn number(digits: &[u8]) -> u32
    requires { length digits.now < 6 }
    ensures { result ≡ number digits.now }
{
    let mut n = 0;
    for digit in digits {
        n = n * 10 + u32::from(digit.saturating_sub(b'0'));
    }
    n
}

fn all_graphic(bytes: &[u8]) -> bool
    ensures { result ≡ list_all is_ascii_graphic bytes.now }
{
    bytes.iter().all(|b| b.is_ascii_graphic())
}

fn all_digits(bytes: &[u8]) -> bool
    ensures { result ≡ list_all is_ascii_digit bytes.now }
{
    bytes.iter().all(|b| b.is_ascii_digit())
}

/// The texts that pass are those that are a host, a colon and a port.
pub fn server_law()
    ensures { (text : List ℕ) → IsTrue (is_server text) ↔ IsServer text }
{}
