//! Legs leave the heap of their group, and enter that of another one.

ghost use Rattle.std.specs.Prelude.{◌≡◌, ◌<◌, ℕ, Option, None, Some, is_some, true};
ghost use Rattle.mcv_queues.specs.Rows.{links, legs, room};
ghost use Rattle.mcv_queues.specs.Forest.{free_link};
ghost use Rattle.mcv_queues.specs.Groups.{group_of, group_at};
ghost use Rattle.mcv_queues.specs.declared.leg.Leg.{Leg};
ghost use Rattle.mcv_queues.specs.declared.roots.Group.TheVariants.{WaitingFor};
ghost use Rattle.mcv_queues.specs.Soundness.{AreTrees, AreTreesBut, AreInRange};
ghost use Rattle.mcv_queues.specs.Legs.{server_of, with_state};
ghost use Rattle.mcv_queues.specs.Roots.{root_of, flights, known, IsKnown};

use crate::leg::State;
use crate::roots::{Group, Roots};
use crate::rows::{Link, Rows};

/// The group of a leg of a server in a state.
fn group_at(server: usize, state: State) -> Option<Group>
    ensures { result ≡ group_at server state }
{
    match state {
        State::Waiting => Some(Group::WaitingFor(server)),
        State::InSpool => Some(Group::SpooledFor(server)),
        State::Held => Some(Group::HeldLegs),
        State::Refused => Some(Group::RefusedLegs),
        State::InReplay => Some(Group::LegsInReplay),
        State::Sent => None,
    }
}

impl<T: Drop> Rows<T> {
    /// A leg leaves the heap of its group; its links are given.
    fn leave_group(&mut self, roots: &mut Roots, group: Option<Group>, number: u64, link: Link)
        requires known { (g : Group) → group ≡ Some g → IsKnown roots.old g }
        requires link { links self.old number ≡ Some link }
        ensures trees { (all : ℕ → Option (Leg T)) → group_of (all number) ≡ group → AreTrees all (links self.old) (root_of roots.old) → AreTreesBut number all (links self.new) (root_of roots.new) }
        ensures legs { legs self.new ≡ legs self.old }
        ensures room { room self.new ≡ room self.old }
        ensures flights { (s : ℕ) → flights roots.new s ≡ flights roots.old s }
        ensures known { known roots.new ≡ known roots.old }
    {
        if let Some(group) = group {
            let root = self.take_out(roots.get(group), number, link);
            roots.set(group, root);
        }
    }

    /// A leg enters the heap of its group.
    fn enter_group(&mut self, roots: &mut Roots, group: Option<Group>, number: u64)
        requires known { (g : Group) → group ≡ Some g → IsKnown roots.old g }
        requires there { is_some (legs self.old number) ≡ true }
        ensures trees { (all : ℕ → Option (Leg T)) → group_of (all number) ≡ group → AreTreesBut number all (links self.old) (root_of roots.old) → AreTrees all (links self.new) (root_of roots.new) }
        ensures legs { legs self.new ≡ legs self.old }
        ensures room { room self.new ≡ room self.old }
        ensures flights { (s : ℕ) → flights roots.new s ≡ flights roots.old s }
        ensures known { known roots.new ≡ known roots.old }
    {
        if let Some(group) = group {
            let root = self.put_in(roots.get(group), number);
            roots.set(group, root);
        }
    }

    /// A leg that hangs from none, and from which nothing hangs, enters the heap of those that wait for its server.
    pub fn enter_new(&mut self, roots: &mut Roots, server: usize, number: u64)
        requires known { server < known roots.old }
        requires free { links self.old number ≡ Some free_link }
        requires group { group_of (legs self.old number) ≡ Some (WaitingFor server) }
        ensures trees { AreTreesBut number (legs self.old) (links self.old) (root_of roots.old) → AreTrees (legs self.old) (links self.new) (root_of roots.new) }
        ensures legs { legs self.new ≡ legs self.old }
        ensures room { room self.new ≡ room self.old }
        ensures flights { (s : ℕ) → flights roots.new s ≡ flights roots.old s }
        ensures known { known roots.new ≡ known roots.old }
    {
        let group = Group::WaitingFor(server);
        let root = self.put_in_new(roots.get(group), number);
        roots.set(group, root);
    }

    /// A leg leaves the heap of its group. Gives the number of its server; 0 where there is no leg.
    pub fn leave(&mut self, roots: &mut Roots, number: u64) -> usize
        requires range { AreInRange (legs self.old) (known roots.old) }
        ensures trees { AreTrees (legs self.old) (links self.old) (root_of roots.old) → AreTreesBut number (legs self.old) (links self.new) (root_of roots.new) }
        ensures server { result ≡ server_of (legs self.old number) }
        ensures legs { legs self.new ≡ legs self.old }
        ensures room { room self.new ≡ room self.old }
        ensures flights { (s : ℕ) → flights roots.new s ≡ flights roots.old s }
        ensures known { known roots.new ≡ known roots.old }
    {
        let Some(seen) = self.seen(number) else {
            return 0;
        };
        self.leave_group(roots, group_at(seen.server, seen.state), number, seen.link);
        seen.server
    }

    /// A leg gets another state. Gives the number of its server; 0 where there is no leg.
    pub fn change_state(&mut self, roots: &mut Roots, number: u64, state: State) -> usize
        requires range { AreInRange (legs self.old) (known roots.old) }
        ensures trees { AreTrees (legs self.old) (links self.old) (root_of roots.old) → AreTrees (legs self.new) (links self.new) (root_of roots.new) }
        ensures server { result ≡ server_of (legs self.old number) }
        ensures legs { legs self.new ≡ with_state (legs self.old) number state }
        ensures room { room self.new ≡ room self.old }
        ensures flights { (s : ℕ) → flights roots.new s ≡ flights roots.old s }
        ensures known { known roots.new ≡ known roots.old }
    {
        let Some(seen) = self.restate(number, state) else {
            return 0;
        };
        self.leave_group(roots, group_at(seen.server, seen.state), number, seen.link);
        self.enter_group(roots, group_at(seen.server, state), number);
        seen.server
    }
}
