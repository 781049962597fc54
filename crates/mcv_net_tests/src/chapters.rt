//! When an operator is told that chapters are full and begin again.

use mcv_net::Shortages;
use mcv_watch::Shortage;
use std::test::Fail;

/// How many refusals are told, where the hub of this number refuses a request, since its chapter is full.
fn told(shortages: &mut Shortages, hub: usize) -> Option<u64> {
    shortages.more(hub, Shortage::Chapter, 1)
}

#[test]
fn a_full_chapter_is_told_and_that_it_begins_again(rt: HostRuntime) -> Result<(), Fail> {
    let mut shortages = Shortages::new(rt.alloc(), 1)?;
    assert!(rt; !shortages.enter(0, 0), "nothing was refused");
    assert_eq!(rt; told(&mut shortages, 0), Some(1));
    assert_eq!(rt; told(&mut shortages, 0), None);
    assert!(rt; !shortages.enter(0, 0), "a reply of the full chapter");
    assert!(rt; shortages.enter(0, 1), "the next chapter");
    assert!(rt; !shortages.enter(0, 1), "the next chapter again");
    assert!(rt; !shortages.enter(0, 0), "a late reply");
    assert_eq!(rt; told(&mut shortages, 0), Some(3));
    assert!(rt; !shortages.enter(0, 1), "a reply of the full chapter");
    assert!(rt; shortages.enter(0, 3), "two chapters later");
    Ok(())
}

#[test]
fn hubs_have_chapters_of_their_own(rt: HostRuntime) -> Result<(), Fail> {
    let mut shortages = Shortages::new(rt.alloc(), 2)?;
    assert!(rt; !shortages.enter(1, 7), "nothing was refused");
    assert_eq!(rt; told(&mut shortages, 0), Some(1));
    assert_eq!(rt; told(&mut shortages, 1), Some(2));
    assert!(rt; !shortages.enter(1, 7), "a reply of the full chapter");
    assert!(rt; shortages.enter(0, 1), "the first hub's next chapter");
    assert!(rt; shortages.enter(1, 8), "the second hub's next chapter");
    assert!(rt; !shortages.enter(2, 9), "no such hub");
    Ok(())
}

#[test]
fn legs_are_told_at_the_first_and_each_thousandth(rt: HostRuntime) -> Result<(), Fail> {
    let mut shortages = Shortages::new(rt.alloc(), 1)?;
    for number in 1..2002u64 {
        let is_told = shortages.more(0, Shortage::Legs, 1).is_some();
        let is_wanted = number == 1 || number == 1000 || number == 2000;
        assert_eq!(rt; is_told, is_wanted, "{number}");
    }
    assert!(rt; !shortages.enter(0, 1), "no chapter was full");
    Ok(())
}

#[test]
fn refusals_of_one_turn_are_told_together(rt: HostRuntime) -> Result<(), Fail> {
    let mut shortages = Shortages::new(rt.alloc(), 1)?;
    assert_eq!(rt; shortages.more(0, Shortage::Legs, 0), None);
    assert_eq!(rt; shortages.more(0, Shortage::Legs, 1500), Some(1500));
    assert_eq!(rt; shortages.more(0, Shortage::Legs, 499), None);
    assert_eq!(rt; shortages.more(0, Shortage::Legs, 1), Some(2000));
    assert_eq!(rt; shortages.more(0, Shortage::Legs, 1001), Some(3001));
    assert_eq!(rt; shortages.more(0, Shortage::Chapter, 3), Some(3));
    Ok(())
}
