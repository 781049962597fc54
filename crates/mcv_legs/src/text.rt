//! The text of legs and of a reply.

ghost use Rattle.std.specs.Prelude.{◌≡◌, ◌++◌, OnOk, IfOk};
ghost use Rattle.mcv_legs.specs.Text.{leg_line, legs_text, mark_word, reply_line, reply_word, server_text};

use mcv_base::{Mark, Outcome, ServerId};
use mcv_pools::Servers;
use mcv_route::Launch;
use std::alloc::{AllocError, Global};

fn mark_word(mark: Mark) -> &'static str
    ensures { result.now ≡ mark_word mark }
{
    match mark {
        Mark::Plain => "plain",
        Mark::Async => "async",
        Mark::Shadow => "shadow",
        Mark::Add => "add",
    }
}

fn reply_word(reply: Option<Outcome>) -> &'static str
    ensures { result.now ≡ reply_word reply }
{
    match reply {
        None => "none",
        Some(Outcome::Good) => "good",
        Some(Outcome::Soft) => "soft",
        Some(Outcome::Error) => "error",
    }
}

/// Adds the line of the reply. On an error part of it may be there.
pub fn push_reply(text: &mut Vec<u8>, reply: Option<Outcome>) -> Result<(), AllocError>
    ensures { OnOk result (text.new.items ≡ text.old.items ++ reply_line reply) }
{
    text.extend_from_slice(b"reply ")?;
    text.extend_from_slice(reply_word(reply).as_bytes())?;
    text.extend_from_slice(b"\n")?;
    Ok(())
}

/// Adds the line of a leg. On an error part of it may be there.
fn push_leg(text: &mut Vec<u8>, servers: &Servers, leg: &Launch) -> Result<(), AllocError>
    ensures { OnOk result (text.new.items ≡ text.old.items ++ leg_line servers.now leg.now) }
{
    text.extend_from_slice(b"leg ")?;
    leg.position.push_text(text)?;
    text.extend_from_slice(b" ")?;
    text.extend_from_slice(server_text(servers, leg.server).as_bytes())?;
    text.extend_from_slice(b" ")?;
    text.extend_from_slice(mark_word(leg.mark).as_bytes())?;
    text.extend_from_slice(b"\n")?;
    Ok(())
}

fn server_text(servers: &Servers, server: ServerId) -> &str
    ensures { result.now ≡ server_text servers.now server.0 }
{
    servers.text(server).unwrap_or("")
}

/// The lines of the legs, and then that of the reply.
#[tactic(auto, using(mcv_base::proofs::Texts::flat_map_step))]
pub fn legs_text(
    alloc: Global,
    servers: &Servers,
    legs: &[Launch],
    reply: Option<Outcome>,
) -> Result<Vec<u8>, AllocError>
    ensures { IfOk result (λ text. text.items ≡ legs_text servers.now legs.now reply) }
{
    let mut text = Vec::new(alloc);
    for leg in legs {
        push_leg(&mut text, servers, leg)?;
    }
    push_reply(&mut text, reply)?;
    Ok(text)
}
