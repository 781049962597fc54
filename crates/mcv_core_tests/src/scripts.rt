//! What a core answers, event by event.

use crate::script::play;

/// A script a block. Its first line has its name, the configuration, and the records with which the core is opened.
const SCRIPTS: &str = "\
an answered delete is performed = ONE
begin Delete = Ok(CallId(0))
begin Delete = Ok(CallId(1))
next 0 = Ok(LegId(0))
next 0 = Err(Busy)
answered 0 NotFound = Ok(Performed)
next 0 = Ok(LegId(1))
answered 0 NotFound = Err(NoSuchLeg)

the first reply is taken once = BOTH
begin Delete = Ok(CallId(0))
next 0 = Ok(LegId(0))
take 0 = Ok(None)
answered 0 Deleted = Ok(Performed)
take 0 = Ok(Some(Fixed(Deleted)))
take 0 = Ok(None)
next 1 = Ok(LegId(1))
lost 1 = Ok(Held)
turn = Err(Busy)
refused 1 = Ok(Held)
take 0 = Err(NoSuchCall)
turn = Err(Busy)

the clock opens eras = MOVING
era = 0
clock 1000 = Ok(Some(Era { since: Some(Moment(1000)) }))
era = 1
clock 999 = Err(ClockBack)
clock 1001 = Ok(None)

three failures mark = ONE
begin Get = Ok(CallId(0))
next 0 = Ok(LegId(0))
lost 0 = Ok(Gone)
mark 0 = ()
marked 0 = false
begin Get = Ok(CallId(1))
next 0 = Ok(LegId(1))
lost 1 = Ok(Gone)
mark 0 = ()
marked 0 = false
begin Get = Ok(CallId(2))
next 0 = Ok(LegId(2))
lost 2 = Ok(Gone)
mark 0 = ()
marked 0 = true
unmark 0 = ()
marked 0 = false

a get has its hit = ONE
begin Get = Ok(CallId(0))
state 0 = Some(Waiting)
next 0 = Ok(LegId(0))
state 0 = Some(Sent)
answered 0 v = Ok(Gone)
take 0 = Ok(Some(Owned(Hit { flags: 7, cas: None, body: [118] })))

a leg has what its call asks = ONE
begin Get = Ok(CallId(0))
leg 0 = Get a Plain ServerId(0) Some(CallId(0)) None true
leg 1 = \"none\"

legs of a delete ask for its rest = WARMING
begin Delete = Ok(CallId(0))
legs = 2
asks 0 = Delete a 0 0 \"\"
asks 1 = Delete a 0 0 \"\"
asks 2 = \"none\"

an add asks for the hit of warm = WARMING
begin Get = Ok(CallId(0))
next 0 = Ok(LegId(0))
answered 0 Miss = Ok(Gone)
next 1 = Ok(LegId(1))
answered 1 x = Ok(Gone)
asks 2 = Add a 7 60 \"x\"

a leg of the spool asks for its record = WARMING, 3 b:11211 k
asks 0 = Delete k 0 0 \"\"

a reply can be taken once = WARMING
begin Get = Ok(CallId(0))
ready 0 = false
next 0 = Ok(LegId(0))
answered 0 x = Ok(Gone)
ready 0 = true
take 0 = Ok(Some(Owned(Hit { flags: 7, cas: None, body: [120] })))
ready 0 = false

opened records are replayed = ONE, 7 a:11211 k, 9 x:11211 k
state 0 = Some(Spooled)
state 1 = None
record 0 = Some(7)
record 1 = None
next 0 = Err(NothingWaiting)
replay 0 = Ok(LegId(0))
record 0 = Some(7)
turn = Err(Busy)
answered 0 Deleted = Ok(Performed)
state 0 = None
record 0 = None
replay 0 = Err(NothingWaiting)

a chapter begins with its spooled legs = ONE, 0 a:11211 k, 1 a:11211 l, 2 x:11211 l, 5 a:11211 m
record 1 = Some(1)
record 2 = Some(5)
entries = 3
replay 0 = Ok(LegId(0))
answered 0 NotFound = Ok(Performed)
entries = 3
turn = Ok(())
entries = 2
record 1 = Some(1)
replay 0 = Ok(LegId(1))

an opened leg is a delete of its record = ONE, 7 a:11211 k
leg 0 = Delete k Plain ServerId(0) None Some(7) false

a stored delete is not found = ONE
begin Delete = Ok(CallId(0))
next 0 = Ok(LegId(0))
lost 0 = Ok(Held)
held = Some(LegId(0))
take 0 = Ok(None)
spooled 0 0 b = Err(NoSuchLeg)
record 0 = None
spooled 0 0 a = Ok(Spooled)
record 0 = Some(0)
held = None
take 0 = Ok(Some(Fixed(NotFound)))
take 0 = Err(NoSuchCall)
turn = Ok(())
entries = 1

a stored delete is replayed until it is performed = ONE
begin Delete = Ok(CallId(0))
next 0 = Ok(LegId(0))
lost 0 = Ok(Held)
spooled 0 3 a = Ok(Spooled)
record 0 = Some(3)
replay 0 = Ok(LegId(0))
answered 0 Fault = Ok(Spooled)
replay 0 = Ok(LegId(0))
lost 0 = Ok(Spooled)
record 0 = Some(3)
replay 0 = Ok(LegId(0))
answered 0 Deleted = Ok(Performed)
replay 0 = Err(NothingWaiting)

a refused delete is an error and stays held = ONE
begin Delete = Ok(CallId(0))
next 0 = Ok(LegId(0))
lost 0 = Ok(Held)
refused 0 = Ok(Held)
take 0 = Ok(Some(Fixed(Lost)))
refused 0 = Ok(Held)
state 0 = Some(Held)
turn = Err(Busy)
record 0 = None
spooled 0 1 a = Ok(Spooled)
record 0 = Some(1)
turn = Ok(())

legs without an outcome are held first = ONE
begin Delete = Ok(CallId(0))
next 0 = Ok(LegId(0))
lost 0 = Ok(Held)
begin Delete = Ok(CallId(1))
next 0 = Ok(LegId(1))
lost 1 = Ok(Held)
held = Some(LegId(0))
refused 0 = Ok(Held)
held = Some(LegId(1))
refused 1 = Ok(Held)
held = Some(LegId(0))

one leg of a server is in flight = ONE, 7 a:11211 k
limit = 1
begin Get = Ok(CallId(0))
replay 0 = Ok(LegId(0))
flights 0 = 1
next 0 = Err(Busy)
lost 0 = Ok(Spooled)
flights 0 = 0
next 0 = Ok(LegId(1))
replay 0 = Err(Busy)

two legs are answered in the order of sending = ONE/2
limit = 2
begin Delete = Ok(CallId(0))
begin Delete = Ok(CallId(1))
begin Delete = Ok(CallId(2))
next 0 = Ok(LegId(0))
next 0 = Ok(LegId(1))
flights 0 = 2
next 0 = Err(Busy)
answered 0 Deleted = Ok(Performed)
flights 0 = 1
take 0 = Ok(Some(Fixed(Deleted)))
take 1 = Ok(None)
answered 1 NotFound = Ok(Performed)
take 1 = Ok(Some(Fixed(NotFound)))
next 0 = Ok(LegId(2))
flights 0 = 1

two legs are answered in the other order = ONE/2
begin Delete = Ok(CallId(0))
begin Delete = Ok(CallId(1))
begin Delete = Ok(CallId(2))
next 0 = Ok(LegId(0))
next 0 = Ok(LegId(1))
answered 1 NotFound = Ok(Performed)
answered 1 NotFound = Err(NoSuchLeg)
take 1 = Ok(Some(Fixed(NotFound)))
take 0 = Ok(None)
next 0 = Ok(LegId(2))
next 0 = Err(Busy)
answered 0 Deleted = Ok(Performed)
take 0 = Ok(Some(Fixed(Deleted)))
flights 0 = 1

a server's legs are no other's = BOTH/2
begin Delete = Ok(CallId(0))
begin Delete = Ok(CallId(1))
begin Delete = Ok(CallId(2))
next 0 = Ok(LegId(0))
next 0 = Ok(LegId(2))
next 0 = Err(Busy)
flights 1 = 0
next 1 = Ok(LegId(1))
flights 1 = 1

a connection that is lost is one failure = ONE/3
begin Get = Ok(CallId(0))
begin Get = Ok(CallId(1))
begin Get = Ok(CallId(2))
next 0 = Ok(LegId(0))
next 0 = Ok(LegId(1))
next 0 = Ok(LegId(2))
lost 0 = Ok(Gone)
lost_too 1 = Ok(Gone)
lost_too 1 = Err(NoSuchLeg)
lost_too 2 = Ok(Gone)
take 1 = Ok(Some(Fixed(Lost)))
mark 0 = ()
marked 0 = false
begin Get = Ok(CallId(3))
next 0 = Ok(LegId(3))
lost 3 = Ok(Gone)
mark 0 = ()
marked 0 = false
begin Get = Ok(CallId(4))
next 0 = Ok(LegId(4))
lost 4 = Ok(Gone)
mark 0 = ()
marked 0 = true

deletes of a lost connection are held = ONE/3
begin Delete = Ok(CallId(0))
begin Delete = Ok(CallId(1))
begin Delete = Ok(CallId(2))
next 0 = Ok(LegId(0))
next 0 = Ok(LegId(1))
next 0 = Ok(LegId(2))
lost 0 = Ok(Held)
lost_too 1 = Ok(Held)
lost_too 2 = Ok(Held)
flights 0 = 0
take 1 = Ok(None)
spooled 0 0 a = Ok(Spooled)
spooled 1 1 a = Ok(Spooled)
spooled 2 2 a = Ok(Spooled)
take 1 = Ok(Some(Fixed(NotFound)))

replays and legs share the limit = ONE/3, 7 a:11211 k, 8 a:11211 l, 9 a:11211 m
replay 0 = Ok(LegId(0))
replay 0 = Ok(LegId(1))
begin Delete = Ok(CallId(0))
next 0 = Ok(LegId(3))
replay 0 = Err(Busy)
spooled 0 7 k = Err(NoSuchLeg)
lost 1 = Ok(Spooled)
replay 0 = Ok(LegId(1))
lost_too 0 = Ok(Spooled)
answered 0 Deleted = Err(NoSuchLeg)
answered 1 Deleted = Ok(Performed)
replay 0 = Ok(LegId(0))
replay 0 = Ok(LegId(2))
answered 3 Deleted = Ok(Performed)
take 0 = Ok(Some(Fixed(Deleted)))
answered 2 Deleted = Ok(Performed)
turn = Err(Busy)
answered 0 Fault = Ok(Spooled)
turn = Ok(())
entries = 1";

#[test]
fn cores_answer_as_scripts_say(rt: HostRuntime) {
    for script in SCRIPTS.split("\n\n") {
        play(&rt, script);
    }
}

const LEGS: &str = "\
a core holds 65536 legs = ONE
deletes 65536 = true
begin Delete = Err(LegsFull)";

#[test]
fn a_core_holds_65536_legs(rt: HostRuntime) {
    play(&rt, LEGS);
}

const GETS: &str = "\
a chapter holds 200000 gets = ONE
misses 200000 = true
entries = 1000000
begin Get = Err(ChapterFull)
turn = Ok(())
misses 1 = true";

#[test]
fn a_chapter_holds_200000_gets(rt: HostRuntime) {
    play(&rt, GETS);
}
