//! What a handle is asked, and where a migration sends that.

ghost use Rattle.std.specs.Prelude.{◌≡◌, [], option_map};
ghost use Rattle.mcv_base.specs.declared.operation.Mark.TheVariants.{Shadow as Shadowed};
ghost use Rattle.mcv_base.specs.declared.operation.Op.TheVariants.{Add as Adding};
ghost use Rattle.mcv_route.specs.Children.{way_of};
ghost use Rattle.mcv_route.specs.Misses.{fails_over_on_miss, is_warmed_up};
ghost use Rattle.mcv_route.specs.Situation.{has_passed, marked_add, marked_async};
ghost use Rattle.mcv_rules.specs.PlanInMemory.{situation_at, way_seen};

use mcv_base::{Mark, Moment, Op, Rest};

/// What a handle is asked, beside its place.
#[derive(Clone, Copy)]
pub struct Asked<'a> {
    pub op: Op,
    pub rest: &'a Rest,
    /// The break at which the era began, and none in the first era.
    pub since: Option<Moment>,
    /// The mark of a leg that no handle below marks.
    pub mark: Mark,
}

/// Where a migration sends.
#[derive(Clone, Copy, PartialEq, Eq)]
pub enum Way {
    From,
    To,
    Both,
}

impl<'a> Asked<'a> {
    /// What is asked of those whose replies no one waits for.
    pub fn asynchronous(self) -> Asked<'a>
        ensures { let asked = self.entry in result ≡ record asked { mark = marked_async asked.mark } }
    {
        let mark = match self.mark {
            Mark::Plain => Mark::Async,
            Mark::Async => Mark::Async,
            Mark::Add => Mark::Add,
            Mark::Shadow => Mark::Shadow,
        };
        Asked { mark, ..self }
    }

    /// What is asked of a shadow's target.
    pub fn shadowed(self) -> Asked<'a>
        ensures { let asked = self.entry in result ≡ record asked { mark = Shadowed } }
    {
        Asked {
            mark: Mark::Shadow,
            ..self
        }
    }

    /// The add by which a warm-up fills its cold side.
    pub fn adding(self) -> Asked<'a>
        ensures { let asked = self.entry in result ≡ record asked { op = Adding; mark = marked_add asked.mark } }
    {
        let mark = match self.mark {
            Mark::Shadow => Mark::Shadow,
            Mark::Plain | Mark::Async | Mark::Add => Mark::Add,
        };
        Asked {
            op: Op::Add,
            mark,
            ..self
        }
    }

    /// Whether a MissFailoverRoute asks its children in turn, up to a hit: for get and gets.
    pub fn fails_over_on_miss(&self) -> bool
        ensures { result ≡ fails_over_on_miss self.now.op }
    {
        self.op.is_reading()
    }

    /// Whether a WarmUpRoute asks warm where cold has missed: for get and gets.
    pub fn is_warmed_up(&self) -> bool
        ensures { result ≡ is_warmed_up self.now.op }
    {
        matches!(self.op, Op::Get | Op::Gets)
    }

    /// Where a migration sends what is asked: of deletes more than of the rest, between its start and its end.
    pub fn way(&self, start: u32, interval: u32) -> Way
        ensures { way_seen result ≡ way_of (situation_at self.now []) start interval }
    {
        let start = u64::from(start);
        let interval = u64::from(interval);
        if !has_passed(self.since, start) {
            Way::From
        } else if has_passed(self.since, start + 2 * interval) {
            Way::To
        } else if self.op.is_delete() {
            Way::Both
        } else if has_passed(self.since, start + interval) {
            Way::To
        } else {
            Way::From
        }
    }
}

/// Whether the era began at the moment or after it.
fn has_passed(since: Option<Moment>, moment: u64) -> bool
    ensures { result ≡ has_passed (option_map (λ m. m.0) since) moment }
{
    match since {
        None => false,
        Some(began) => moment <= began.0,
    }
}
