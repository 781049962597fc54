//! Skew heaps: each number hangs from a lesser one, and the least of them is the root.
//!
//! Two heaps become one along their right sides, and on the way each number's left and right are swapped, which keeps the
//! way short: a call takes O(log n) steps, taken over all calls. There is no recursion and no memory is taken.

ghost use Rattle.std.specs.Prelude.{◌≡◌, ◌<◌, ℕ, Bool, true, false, Option, None, Some, IfSome, is_some};
ghost use Rattle.mcv_queues.specs.Forest.{IsForest, cut, free_link, raised_some, right_of};
ghost use Rattle.mcv_queues.specs.Rows.{links, legs, room};
ghost use Rattle.mcv_queues.specs.Heap.{hung, parted, stepped, AreApart, IsBefore, IsJoined, IsOut, IsIn};

use crate::rows::{Link, Rows, unless};

/// Where two trees become one next: what hangs up there, and what is still to be hung up.
#[derive(Clone, Copy)]
pub(crate) struct Step {
    pub next: u64,
    pub rest: u64,
}

/// The lesser one of what hangs at the right and of what is to be hung up, and the other one.
pub(crate) fn parted(upper: u64, lower: u64, right: Option<u64>) -> Option<Step>
    ensures step { result ≡ parted upper lower right }
    ensures above { IfSome result (λ step. upper < step.next) }
{
    let right = right?;
    if upper < right && upper < lower {
        if right < lower {
            Some(Step {
                next: right,
                rest: lower,
            })
        } else {
            Some(Step {
                next: lower,
                rest: right,
            })
        }
    } else {
        None
    }
}

impl<T: Drop> Rows<T> {
    /// As `raise`, if there is a number.
    fn raise_some(&mut self, number: Option<u64>, up: Option<u64>)
        ensures links { links self.new ≡ raised_some (links self.old) number up }
        ensures legs { legs self.new ≡ legs self.old }
        ensures room { room self.new ≡ room self.old }
    {
        if let Some(number) = number {
            self.raise(number, up);
        }
    }

    /// As `cut_one`, if there is a number.
    fn cut(&mut self, number: Option<u64>, child: u64)
        ensures links { links self.new ≡ cut (links self.old) number child }
        ensures legs { legs self.new ≡ legs self.old }
        ensures room { room self.new ≡ room self.old }
    {
        if let Some(number) = number {
            self.cut_one(number, child);
        }
    }

    /// The second half of a step: what hangs elsewhere from now on. Where `lower` stays to be hung up, the next number hung
    /// from `upper` before.
    fn hang(&mut self, upper: u64, lower: u64, step: Step)
        ensures links { links self.new ≡ hung (links self.old) upper lower step }
        ensures legs { legs self.new ≡ legs self.old }
        ensures room { room self.new ≡ room self.old }
    {
        if step.rest != lower {
            self.raise(step.next, Some(upper));
            self.raise(step.rest, None);
        }
    }

    /// One step of making two trees one.
    fn step(&mut self, upper: u64, lower: u64) -> Option<Step>
        ensures step { result ≡ parted upper lower (right_of (links self.old upper)) }
        ensures links { links self.new ≡ stepped (links self.old) upper lower result }
        ensures above { IfSome result (λ step. upper < step.next) }
        ensures legs { legs self.new ≡ legs self.old }
        ensures room { room self.new ≡ room self.old }
    {
        let step = self.part(upper, lower);
        match step {
            Some(step) => self.hang(upper, lower, step),
            None => self.raise(lower, Some(upper)),
        }
        step
    }

    /// Makes two trees one, from their roots, the lesser one first.
    fn meld(&mut self, root: u64, other: u64)
        ensures joined { (w : ℕ → Bool) (c : Option ℕ) → root < other → IsForest w (links self.old) (Some root) (Some other) c → IsBefore c (Some root) → IsJoined w (links self.old) (links self.new) (Some root) (Some other) (Some root) c }
        ensures legs { legs self.new ≡ legs self.old }
        ensures room { room self.new ≡ room self.old }
    {
        let (mut upper, mut lower) = (root, other);
        while let Some(step) = self.step(upper, lower) {
            upper = step.next;
            lower = step.rest;
        }
    }

    /// Makes two trees one.
    fn join(&mut self, first: Option<u64>, second: Option<u64>) -> Option<u64>
        ensures joined { (w : ℕ → Bool) (c : Option ℕ) → IsForest w (links self.old) first second c → AreApart first second → IsBefore c first → IsBefore c second → IsJoined w (links self.old) (links self.new) first second result c }
        ensures legs { legs self.new ≡ legs self.old }
        ensures room { room self.new ≡ room self.old }
    {
        match (first, second) {
            (Some(first), Some(second)) => {
                if first < second {
                    self.meld(first, second);
                    Some(first)
                } else {
                    self.meld(second, first);
                    Some(second)
                }
            }
            (Some(first), None) => Some(first),
            (None, second) => second,
        }
    }

    /// Takes a number, whose links these are, out of the tree with this root, and gives the root then.
    pub fn take_out(&mut self, root: Option<u64>, number: u64, link: Link) -> Option<u64>
        requires { links self.old number ≡ Some link }
        ensures out { (w : ℕ → Bool) → IsForest w (links self.old) root None None → w number ≡ true → IsOut w (links self.old) (links self.new) number result }
        ensures legs { legs self.new ≡ legs self.old }
        ensures room { room self.new ≡ room self.old }
    {
        self.cut(link.up, number);
        self.raise_some(link.left, None);
        self.raise_some(link.right, None);
        let children = self.join(link.left, link.right);
        self.join(unless(root, number), children)
    }

    /// Puts a number into the tree with this root, and gives the root then.
    pub fn put_in(&mut self, root: Option<u64>, number: u64) -> Option<u64>
        requires { is_some (links self.old number) ≡ true }
        ensures in_it { (w : ℕ → Bool) → IsForest w (links self.old) root None None → w number ≡ false → IsIn w (links self.old) (links self.new) number result }
        ensures legs { legs self.new ≡ legs self.old }
        ensures room { room self.new ≡ room self.old }
    {
        self.free(number);
        self.put_in_new(root, number)
    }

    /// As `put_in`, of a number that hangs from none, and from which nothing hangs.
    pub fn put_in_new(&mut self, root: Option<u64>, number: u64) -> Option<u64>
        requires { links self.old number ≡ Some free_link }
        ensures in_it { (w : ℕ → Bool) → IsForest w (links self.old) root None None → w number ≡ false → IsIn w (links self.old) (links self.new) number result }
        ensures legs { legs self.new ≡ legs self.old }
        ensures room { room self.new ≡ room self.old }
    {
        self.join(root, Some(number))
    }
}
