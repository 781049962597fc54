//! Who answers the requests of a session.

ghost use Rattle.std.specs.Prelude.{◌≡◌};
ghost use Rattle.mcv_session.specs.Desk.{fault_line, fault_number, fault_text};

use mcv_base::{Part, Request};
use std::sync::Arc;
use thiserror::Error;

/// Why a desk answers no replies. The session goes on.
#[derive(Clone, Copy, Debug, PartialEq, Eq, Error)]
pub enum DeskFault {
    #[error("no route has the key's prefix")]
    NoRoute = 1,
    #[error("bad key")]
    BadKey = 2,
    #[error("too much is going on")]
    Busy = 3,
    #[error("out of memory")]
    Memory = 4,
}

impl DeskFault {
    /// The number of the fault, from 1.
    pub fn number(self) -> u8
        ensures { result ≡ fault_number self }
    {
        self as u8
    }

    /// The line that answers it, without its end.
    pub fn line(self) -> &'static str
        ensures { result.now ≡ fault_line self }
    {
        match self {
            DeskFault::NoRoute => "SERVER_ERROR no route",
            DeskFault::BadKey => "CLIENT_ERROR bad key",
            DeskFault::Busy => "SERVER_ERROR busy",
            DeskFault::Memory => "SERVER_ERROR out of memory",
        }
    }

    /// The text that answers it: its line and CR LF.
    pub fn text(self) -> &'static str
        ensures { result.now ≡ fault_text self }
    {
        match self {
            DeskFault::NoRoute => "SERVER_ERROR no route\r\n",
            DeskFault::BadKey => "CLIENT_ERROR bad key\r\n",
            DeskFault::Busy => "SERVER_ERROR busy\r\n",
            DeskFault::Memory => "SERVER_ERROR out of memory\r\n",
        }
    }
}

/// Answers requests one after the other. A session asks it what a client asks servers, never version or quit.
pub trait Desk {
    ghost use Rattle.std.specs.Prelude.{List, Result};
    ghost use Rattle.std.specs.Arc.{arc_value};
    ghost use Rattle.mcv_base.specs.Reply.{ReplyValue};
    ghost use Rattle.mcv_text.specs.Request.{RequestValue, request_value};
    ghost use Rattle.mcv_session.specs.declared.desk.DeskFault.{DeskFault};
    ghost use Rattle.mcv_session.specs.Desk.{HasOneEach, answer_value};

    /// What the desk says of an answer: the desk before, the request, the replies or the fault, the desk after.
    ghost asks: { Self → RequestValue → Result (List ReplyValue) DeskFault → Self → Type 0 };

    /// The replies to a request, one for each key, in the order of the keys.
    fn ask(&mut self, request: &Arc<Request>) -> Result<Vec<Part>, DeskFault>
        ensures asks { asks self.old (request_value (arc_value request.now)) (answer_value result) self.new }
        ensures each { HasOneEach (request_value (arc_value request.now)) (answer_value result) };
}
