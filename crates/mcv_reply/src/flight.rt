//! A leg whose reply is to come.

ghost use Rattle.std.specs.Prelude.{◌≡◌, true};
ghost use Rattle.std.specs.Arc.{arc_value};
ghost use Rattle.mcv_base.specs.Key.{is_key_word};

use mcv_base::{Op, Rest};
use std::marker::Model;
use std::sync::Arc;

/// A leg whose reply is to come. Clauses see its operation and rest.
#[derive(Drop)]
pub struct Flight {
    op: Op,
    rest: Arc<Rest>,
}

impl Model for Flight {
    ghost use Rattle.std.specs.Arc.{arc_value};
    ghost use Rattle.mcv_reply.specs.Replies.{Leg};

    ghost Value = { Leg };

    ghost view = { λ f. record { op = f.op; key = arc_value f.rest } };
}

impl Flight {
    pub fn new(op: Op, rest: Arc<Rest>) -> Flight
        ensures value { result ≡ record { op = op; key = arc_value rest } }
        ensures valid { is_key_word (arc_value rest) ≡ true }
    {
        let _key = rest.as_bytes();
        Flight { op, rest }
    }

    pub fn op(&self) -> Op
        ensures { result ≡ self.now.op }
    {
        self.op
    }

    pub fn key(&self) -> &[u8]
        ensures { result.now ≡ self.now.key }
    {
        self.rest.as_bytes()
    }
}
