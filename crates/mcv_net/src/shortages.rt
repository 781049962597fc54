//! How many requests there was no place for, and which chapters were full.

ghost use Rattle.std.specs.Prelude.{◌≡◌, ◌||◌, max, None, Some, IfOk, if◌then◌else◌, is_some, not, slice_get, vec_len};
ghost use Rattle.mcv_net.specs.Shortages.{are_told, begins_again, chapter_behind, changed_at, entered, filled, filled_by, hubs_behind, is_first_of, is_over, legs_behind, raised, told_of};

use mcv_watch::Shortage;
use std::alloc::{AllocError, Global};

/// What is known of the chapters of a hub.
#[derive(Drop)]
struct Chapters {
    /// The latest one that was seen.
    latest: u64,
    /// While a request was refused in the latest one and no later one was seen yet: the number of the next one.
    full: Option<u64>,
}

impl Chapters {
    /// The first one, which isn't full.
    fn new() -> Chapters
        ensures latest { result.latest ≡ 0 }
        ensures full { result.full ≡ None }
    {
        Chapters {
            latest: 0,
            full: None,
        }
    }

    /// A request was refused, since the chapter is full. Whether it is the first one of that chapter.
    fn fill(&mut self) -> bool
        ensures first { result ≡ not (is_some self.old.full) }
        ensures full { self.new.full ≡ Some (filled self.old.full self.old.latest) }
        ensures latest { self.new.latest ≡ self.old.latest }
    {
        match self.full {
            Some(_) => false,
            None => {
                self.full = Some(self.latest.saturating_add(1));
                true
            }
        }
    }

    /// The hub is in this chapter. Whether it is the first one behind a chapter that was full.
    fn enter(&mut self, chapter: u64) -> bool
        ensures over { result ≡ is_over self.old.full chapter }
        ensures full { self.new.full ≡ if result then None else self.old.full }
        ensures latest { self.new.latest ≡ max self.old.latest chapter }
    {
        self.latest = self.latest.max(chapter);
        match self.full {
            Some(next) if next <= chapter => {
                self.full = None;
                true
            }
            _ => false,
        }
    }
}

/// The chapters of so many hubs.
fn chapters_of(alloc: Global, hubs: usize) -> Result<Vec<Chapters>, AllocError>
    ensures { IfOk result (λ chapters. vec_len chapters ≡ hubs) }
{
    let mut chapters = Vec::new(alloc);
    for _hub in 0..hubs {
        chapters.push(Chapters::new())?;
    }
    Ok(chapters)
}

/// How many requests were refused for each shortage, and whether the chapter of each hub is full.
#[derive(Drop)]
pub struct Shortages {
    legs: u64,
    chapter: u64,
    /// In the order of the hubs' numbers.
    hubs: Vec<Chapters>,
}

/// So many more of what happened so often, and whether an operator is told: of the first one and of each thousandth.
fn add(count: &mut u64, more: u64) -> bool
    ensures count { count.new ≡ raised more count.old }
    ensures told { result ≡ are_told count.old count.new }
{
    let before = *count;
    *count = before.saturating_add(more);
    (before == 0 && 0 < *count) || before / 1000 < *count / 1000
}

/// A count, where an operator is told of it.
fn told(is_told: bool, count: u64) -> Option<u64>
    ensures { result ≡ if is_told then Some count else None }
{
    if is_told { Some(count) } else { None }
}

impl Shortages {
    /// None so far, at so many hubs.
    pub fn new(alloc: Global, hubs: usize) -> Result<Shortages, AllocError>
        ensures none { IfOk result (λ shortages. (shortages.legs ≡ 0) × (shortages.chapter ≡ 0)) }
        ensures hubs { IfOk result (λ shortages. vec_len shortages.hubs ≡ hubs) }
    {
        Ok(Shortages {
            legs: 0,
            chapter: 0,
            hubs: chapters_of(alloc, hubs)?,
        })
    }

    /// The hub of this number refused so many requests more, since its chapter is full. Whether these are the first ones in it.
    fn fills(&mut self, hub: usize, refused: u64) -> bool
        ensures first { result ≡ is_first_of hub refused self.old.hubs.items }
        ensures hubs { self.new.hubs.items ≡ filled_by hub refused self.old.hubs.items }
        ensures legs { self.new.legs ≡ self.old.legs }
        ensures chapter { self.new.chapter ≡ self.old.chapter }
    {
        if refused == 0 {
            return false;
        }
        match self.hubs.get_mut(hub) {
            Some(chapters) => chapters.fill(),
            None => false,
        }
    }

    /// So many more, since the queues of legs were full.
    fn more_legs(&mut self, refused: u64) -> Option<u64>
        ensures legs { self.new.legs ≡ raised refused self.old.legs }
        ensures chapter { self.new.chapter ≡ self.old.chapter }
        ensures hubs { self.new.hubs ≡ self.old.hubs }
        ensures told { result ≡ if are_told self.old.legs self.new.legs then Some self.new.legs else None }
    {
        let is_told = add(&mut self.legs, refused);
        told(is_told, self.legs)
    }

    /// So many more, since the chapter of this hub is full.
    fn more_of_chapter(&mut self, hub: usize, refused: u64) -> Option<u64>
        ensures legs { self.new.legs ≡ self.old.legs }
        ensures chapter { self.new.chapter ≡ raised refused self.old.chapter }
        ensures hubs { self.new.hubs.items ≡ filled_by hub refused self.old.hubs.items }
        ensures told { result ≡ if are_told self.old.chapter self.new.chapter || is_first_of hub refused self.old.hubs.items then Some self.new.chapter else None }
    {
        let is_told = add(&mut self.chapter, refused);
        let is_first = self.fills(hub, refused);
        told(is_told || is_first, self.chapter)
    }

    /// The hub of this number refused so many requests more. How many were refused so, where an operator is to be told: at the
    /// first one, at each thousandth, and at the first of each chapter that is full.
    pub fn more(&mut self, hub: usize, shortage: Shortage, refused: u64) -> Option<u64>
        ensures legs { self.new.legs ≡ legs_behind shortage refused self.old.legs }
        ensures chapter { self.new.chapter ≡ chapter_behind shortage refused self.old.chapter }
        ensures hubs { self.new.hubs.items ≡ hubs_behind shortage hub refused self.old.hubs.items }
        ensures told { result ≡ told_of shortage hub refused self.old self.new }
    {
        match shortage {
            Shortage::Legs => self.more_legs(refused),
            Shortage::Chapter => self.more_of_chapter(hub, refused),
        }
    }

    /// The hub of this number is in this chapter. Whether it is the first one behind a chapter that was full.
    pub fn enter(&mut self, hub: usize, chapter: u64) -> bool
        ensures again { result ≡ begins_again (slice_get self.old.hubs.items hub) chapter }
        ensures hubs { self.new.hubs.items ≡ changed_at hub (entered chapter) self.old.hubs.items }
        ensures legs { self.new.legs ≡ self.old.legs }
        ensures chapter { self.new.chapter ≡ self.old.chapter }
    {
        match self.hubs.get_mut(hub) {
            Some(chapters) => chapters.enter(chapter),
            None => false,
        }
    }
}
