use crate::legs::hit;
use crate::rows::check;
use mcv_base::{
    CallId, FixedReply, KeyFault, LegId, Mark, Op, Outcome, Part, Parts, Position, Prefix, Reply,
    Rest, ServerId, ServerText, hashed_part, split_key,
};
use std::process::Abort;

fn parts<'a>(key: &'a Result<(Prefix, Rest), KeyFault>) -> Option<(&'a [u8], &'a [u8])> {
    match key {
        Ok((prefix, rest)) => Some((prefix.as_bytes(), rest.as_bytes())),
        Err(_) => None,
    }
}

fn fault(word: &[u8]) -> Option<KeyFault> {
    split_key(word).err()
}

#[test]
fn keys_are_cut_behind_the_third_slash(rt: HostRuntime) {
    let cases: [(&[u8], &[u8], &[u8]); 7] = [
        (b"/a/b/c/d", b"/a/b/", b"c/d"),
        (b"/a//x", b"/././", b"/a//x"),
        (b"/a/b", b"/././", b"/a/b"),
        (b"a", b"/././", b"a"),
        (b"//b/c", b"/././", b"//b/c"),
        (b"/././a", b"/././", b"a"),
        (b"a/b/c/d", b"/././", b"a/b/c/d"),
    ];
    for (word, prefix, rest) in cases {
        let key = split_key(word);
        let (found, more) = parts(&key).expect(&rt, "a key");
        check(&rt, found == prefix, "prefix");
        check(&rt, more == rest, "rest");
    }
}

#[test]
fn words_that_are_no_keys_have_their_fault(rt: HostRuntime) {
    let cases: [(&[u8], Option<KeyFault>); 7] = [
        (&[b'k'; 250], None),
        (&[b'k'; 251], Some(KeyFault::TooLong)),
        (b"", Some(KeyFault::Empty)),
        (b"a b", Some(KeyFault::BadByte)),
        (b"a\x7f", Some(KeyFault::BadByte)),
        (b"a\x80", None),
        (b"/a/b/", Some(KeyFault::NoRest)),
    ];
    for (word, wanted) in cases {
        check(&rt, fault(word) == wanted, "the fault");
    }
    for (fault, number) in [
        (KeyFault::Empty, 1),
        (KeyFault::TooLong, 2),
        (KeyFault::BadByte, 3),
        (KeyFault::NoRest, 4),
    ] {
        check(&rt, fault.number() == number, "the number");
    }
}

#[test]
fn the_part_before_the_first_separator_is_hashed(rt: HostRuntime) {
    let cases: [(&[u8], &[u8]); 4] = [
        (b"ab|#|c", b"ab"),
        (b"|#|c", b""),
        (b"a|#|b|#|c", b"a"),
        (b"ab|#c", b"ab|#c"),
    ];
    for (word, part) in cases {
        let rest = Rest::of(word).expect(&rt, "a rest");
        check(&rt, hashed_part(&rest) == part, "the part");
    }
    check(&rt, Rest::of(b"").is_none(), "no rest");
}

#[test]
fn operations_have_one_name_each(rt: HostRuntime) {
    let all = [
        Op::Get,
        Op::Gets,
        Op::Set,
        Op::Add,
        Op::Replace,
        Op::Append,
        Op::Prepend,
        Op::Cas,
        Op::Delete,
        Op::Touch,
        Op::Incr,
        Op::Decr,
    ];
    for op in all {
        check(&rt, Op::named(op.name().as_bytes()) == Some(op), "its name");
        check(&rt, op.is(op), "itself");
        check(
            &rt,
            op.is_reading() == (op == Op::Get || op == Op::Gets),
            "reading",
        );
    }
    check(&rt, Op::named(b"gat").is_none(), "no operation");
    check(
        &rt,
        Op::Incr.shows_value() && Op::Get.shows_value() && !Op::Touch.shows_value(),
        "a value that is shown",
    );
    check(&rt, !Op::Get.is(Op::Gets), "another one");
}

/// The position that is reached from the root by these steps.
fn reached(rt: &(impl AllocGlobal + Abort), steps: &[usize]) -> Position {
    let mut position = Position::root(rt.alloc());
    for step in steps {
        position = position.child(rt.alloc(), *step).expect(rt, "memory");
    }
    position
}

/// Whether a position is the one with these indexes, and its copy too.
fn is_at(rt: &(impl AllocGlobal + Abort), position: &Position, indexes: &[usize]) -> bool {
    let made = Position::at(rt.alloc(), indexes).expect(rt, "memory");
    let copy = position.copy(rt.alloc()).expect(rt, "memory");
    position.is(&made) && copy.is(&made)
}

/// Whether a position has this text.
fn has_text(rt: &(impl AllocGlobal + Abort), position: &Position, text: &[u8]) -> bool {
    let mut spelled = Vec::new(rt.alloc());
    position.push_text(&mut spelled).expect(rt, "memory");
    spelled.as_slice() == text
}

#[test]
fn positions_have_their_text(rt: HostRuntime) {
    let cases: [(&[usize], &[u8]); 3] = [(&[], b"-"), (&[3], b"3"), (&[0, 12], b"0.12")];
    for (indexes, text) in cases {
        let position = reached(&rt, indexes);
        check(&rt, has_text(&rt, &position, text), "the text");
        check(&rt, is_at(&rt, &position, indexes), "the indexes");
        check(&rt, !has_text(&rt, &position, b"0"), "another text");
        check(&rt, !is_at(&rt, &position, &[0]), "other indexes");
    }
}

/// A hit with flags 7.
fn hit_of_7(rt: &(impl AllocGlobal + Abort)) -> Reply {
    hit(rt.alloc(), 7, Some(9), b"x").expect(rt, "memory")
}

/// An error line.
fn fault_line(rt: &(impl AllocGlobal + Abort)) -> Reply {
    Reply::Fault(Vec::from_slice(rt.alloc(), b"ERROR").expect(rt, "memory"))
}

/// What a reply amounts to; it is let go here.
fn amounts(reply: Reply) -> Outcome {
    reply.outcome()
}

#[test]
fn replies_amount_to_outcomes(rt: HostRuntime) {
    check(&rt, amounts(fault_line(&rt)) == Outcome::Error, "a line");
    check(&rt, amounts(hit_of_7(&rt)) == Outcome::Good, "a hit");
    check(&rt, amounts(Reply::NotFound) == Outcome::Soft, "not found");
    for (fixed, outcome) in [
        (FixedReply::Deleted, Outcome::Good),
        (FixedReply::Miss, Outcome::Soft),
        (FixedReply::Lost, Outcome::Error),
    ] {
        check(&rt, fixed.outcome() == outcome, "a fixed one");
        check(&rt, Parts::fixed(fixed).outcome() == outcome, "its parts");
    }
}

/// Whether a part is a hit with flags 7.
fn is_the_hit(part: &Part) -> bool {
    match part {
        Part::Owned(reply) => matches!(&**reply, Reply::Hit { flags: 7, .. }),
        Part::Fixed(_) => false,
    }
}

/// Whether a hit is in each of its parts, and answers a gets alone.
fn is_in_each_part(parts: Parts) -> bool {
    let answers = parts.may_answer(Op::Gets) && !parts.may_answer(Op::Get);
    let (outcome, taken, history) = parts.into_parts();
    answers && is_the_hit(&outcome) && is_the_hit(&taken) && is_the_hit(&history)
}

fn parts_of(rt: &(impl AllocGlobal + Abort), reply: Reply) -> Parts {
    Parts::new(rt.alloc(), reply).expect(rt, "memory")
}

#[test]
fn one_reply_has_three_equal_parts(rt: HostRuntime) {
    check(&rt, is_in_each_part(parts_of(&rt, hit_of_7(&rt))), "a hit");
    let (_, taken, _) = parts_of(&rt, Reply::Deleted).into_parts();
    check(
        &rt,
        matches!(taken, Part::Fixed(FixedReply::Deleted)),
        "fixed",
    );
}

#[test]
fn operations_get_replies_of_their_own(rt: HostRuntime) {
    check(&rt, Reply::NotFound.may_answer(Op::Delete), "a delete");
    check(&rt, !Reply::NotFound.may_answer(Op::Set), "a set");
    check(&rt, FixedReply::Exists.may_answer(Op::Cas), "a cas");
    check(&rt, !FixedReply::Exists.may_answer(Op::Add), "an add");
    check(
        &rt,
        Part::Fixed(FixedReply::Lost).may_answer(Op::Touch),
        "a touch",
    );
    check(
        &rt,
        Op::Delete.is_delete() && !Op::Touch.is_delete(),
        "deletes",
    );
    check(&rt, Op::Cas.is_storing(), "storing");
    check(
        &rt,
        Mark::Async.is_counting() && !Mark::Shadow.is_counting(),
        "marks",
    );
    check(
        &rt,
        CallId(7).is(CallId(7)) && !LegId(7).is(LegId(8)),
        "numbers",
    );
    check(&rt, ServerId(1).is(ServerId(1)), "servers");
}

#[test]
fn copies_are_equal(rt: HostRuntime) {
    let rest = Rest::of(b"a").expect(&rt, "a rest");
    let other = Rest::of(b"ab").expect(&rt, "a rest");
    check(&rt, rest.copied() == rest && rest != other, "rests");
    let server = ServerText::of(b"a:1").expect(&rt, "a server");
    let second = ServerText::of(b"a:2").expect(&rt, "a server");
    check(
        &rt,
        server.copied() == server && server != second,
        "servers",
    );
}
