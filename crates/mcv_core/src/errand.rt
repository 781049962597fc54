//! What a leg takes with it: it outlives its call.

ghost use Rattle.std.specs.Prelude.{◌≡◌};
ghost use Rattle.mcv_core.specs.Errands.{launch_of};

use mcv_base::{Mark, Op, Request, Rest, ServerId};
use mcv_route::Launch;
use std::sync::Arc;

/// What the legs of one call share: what each entry launches, the key's rest, and the client's request, which a leg whose
/// record the spool held at the start hasn't.
#[derive(Drop)]
pub struct Laid {
    pub launches: Vec<Launch>,
    pub rest: Arc<Rest>,
    pub request: Option<Arc<Request>>,
}

/// What a leg is to do: an entry of its call, or of none. It is made when its call begins, so that no later event takes
/// memory.
#[derive(Drop)]
pub struct Errand {
    pub call: Option<u64>,
    pub laid: Arc<Laid>,
    pub entry: usize,
}

impl Errand {
    /// The server to which it goes.
    pub fn server(&self) -> ServerId
        ensures { result ≡ (launch_of self.now).server }
    {
        match self.laid.launches.get(self.entry) {
            Some(launch) => launch.server,
            None => ServerId(0),
        }
    }

    /// Its operation.
    pub fn op(&self) -> Op
        ensures { result ≡ (launch_of self.now).op }
    {
        match self.laid.launches.get(self.entry) {
            Some(launch) => launch.op,
            None => Op::Get,
        }
    }

    /// Its mark.
    pub fn mark(&self) -> Mark
        ensures { result ≡ (launch_of self.now).mark }
    {
        match self.laid.launches.get(self.entry) {
            Some(launch) => launch.mark,
            None => Mark::Plain,
        }
    }

    /// Its place in the tree of its call's route.
    pub fn position(&self) -> &[usize]
        ensures { result.now ≡ (launch_of self.now).position }
    {
        match self.laid.launches.get(self.entry) {
            Some(launch) => launch.position.steps(),
            None => &[],
        }
    }
}
