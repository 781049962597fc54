//! Which connection to a server.

ghost use Rattle.std.specs.Prelude.{◌≡◌, ◌<◌, ◌^◌, ℕ, IfSome, Some};
ghost use Rattle.mcv_schedule.specs.Places.{IsPlace};

use mcv_base::ServerId;

/// Which connection: that to a server, for the legs of a hub.
#[derive(Clone, Copy)]
pub struct Way {
    pub hub: usize,
    pub server: ServerId,
}

impl Way {
    /// Where it is among the connections of all hubs, which stand hub after hub, if there are so many servers. None where there is no
    /// such server, or no such place.
    pub fn place(self, servers: u32) -> Option<usize>
        ensures some { IfSome result (λ place. IsPlace servers self place) }
        ensures none { (place : ℕ) → IsPlace servers self place → place < 2 ^ 64 → result ≡ Some place }
    {
        if self.server.0 >= servers {
            return None;
        }
        self.hub
            .checked_mul(servers as usize)?
            .checked_add(self.server.0 as usize)
    }
}
