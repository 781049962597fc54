//! What a pair's line is read as. It is read leniently: the line of a pair gives that pair, and another line may
//! give any or none; `read` prints what was read again and compares.

ghost use Rattle.std.specs.Prelude.{◌≡◌, ◌==◌, [], ◌∷◌, ◌<◌, ◌^◌, ◌++◌, ℕ, List, All, Some, codes, decimal, map, true, IfOk, IfSome, IsSomeAnd};
ghost use Rattle.std.specs.List.{slice_split};
ghost use Rattle.std.specs.Option.{option_map};
ghost use Rattle.mcv_base.specs.Position.{position_text};
ghost use Rattle.mcv_cert.specs.Escape.{escaped};
ghost use Rattle.mcv_cert.specs.Fits.{FitsPosition, FitsReason, FitsSpot};
ghost use Rattle.mcv_cert.specs.Pair.{IsPair, PairValue, ReasonValue, SpotValue, all, has_eras, names_legs, never, pair_of, reason_of, same, twin};
ghost use Rattle.mcv_cert.specs.Text.{era_words, first_text, pair_text, pair_words, reason_words};

use crate::escape::unescaped;
use crate::pair::{Pair, Reason};
use crate::place::Place;
use mcv_base::Position;
use std::alloc::{AllocError, Global};
use std::str;

/// The eras of a pair, and the words behind theirs.
#[derive(Clone, Copy)]
struct Eras<'a> {
    era: usize,
    get_era: usize,
    behind: &'a [&'a [u8]],
}

/// The window whose certificates begin with this line, without its end. Another line may give any.
pub fn window_of(line: &[u8]) -> Option<u64>
    ensures { (w : ℕ) → w < 2 ^ 64 → line.now ≡ first_text w → result ≡ Some w }
{
    if line == b"mcv-cert 1".as_slice() {
        return Some(0);
    }
    let digits = line.strip_prefix(b"mcv-cert 2 ")?;
    let window = read_number(digits)?;
    Some(window as u64)
}

/// The parts between spaces.
fn words_of(alloc: Global, line: &[u8]) -> Result<Vec<&[u8]>, AllocError>
    ensures { IfOk result (λ v. map (λ w. w.now) v.items ≡ slice_split (λ b. b == 32) line.now) }
{
    line.split(|b| *b == b' ').collect(alloc)
}

/// The number whose text the word is. Another word may give any.
fn read_number(word: &[u8]) -> Option<usize>
    ensures { (n : ℕ) → n < 2 ^ 64 → word.now ≡ decimal n → result ≡ Some n }
{
    match str::from_utf8(word) {
        Ok(text) => text.parse().ok(),
        Err(_) => None,
    }
}

/// Reads the numbers between dots into `steps`; whether they are numbers.
fn read_steps(word: &[u8], steps: &mut Vec<usize>) -> Result<bool, AllocError>
    ensures { (ns : List ℕ) → FitsPosition ns → slice_split (λ b. b == 46) word.now ≡ map decimal ns → IfOk result (λ are. (are ≡ true) × (steps.new.items ≡ ns)) }
{
    steps.clear();
    for part in word.split(|b| *b == b'.') {
        let Some(step) = read_number(part) else {
            return Ok(false);
        };
        steps.push(step)?;
    }
    Ok(true)
}

/// The position whose text the word is; `steps` is a buffer. Another word may give any.
fn read_position(
    alloc: Global,
    word: &[u8],
    steps: &mut Vec<usize>,
) -> Result<Option<Position>, AllocError>
    ensures { (p : List ℕ) → FitsPosition p → word.now ≡ position_text p → IfOk result (λ o. IsSomeAnd o (λ x. x ≡ p)) }
{
    if word == b"-".as_slice() {
        return Ok(Some(Position::root(alloc)));
    }
    if !read_steps(word, steps)? {
        return Ok(None);
    }
    Ok(Some(Position::at(alloc, steps.as_slice())?))
}

/// The positions whose texts the words are.
fn read_positions(
    alloc: Global,
    words: &[&[u8]],
    steps: &mut Vec<usize>,
) -> Result<Option<Vec<Position>>, AllocError>
    ensures { (ps : List (List ℕ)) → All FitsPosition ps → map (λ w. w.now) words.now ≡ map position_text ps → IfOk result (λ o. IsSomeAnd o (λ v. v.items ≡ ps)) }
{
    let mut positions = Vec::new(alloc);
    for word in words {
        let Some(position) = read_position(alloc, word, steps)? else {
            return Ok(None);
        };
        positions.push(position)?;
    }
    Ok(Some(positions))
}

/// The reason whose words these are. Other words may give any.
fn read_reason(
    alloc: Global,
    words: &[&[u8]],
    steps: &mut Vec<usize>,
) -> Result<Option<Reason>, AllocError>
    ensures meant { (r : ReasonValue) → FitsReason r → names_legs r ≡ true → map (λ w. w.now) words.now ≡ reason_words r → IfOk result (λ o. IsSomeAnd o (λ x. reason_of x ≡ r)) }
    ensures legs { IfOk result (λ o. IfSome o (λ x. names_legs (reason_of x) ≡ true)) }
{
    reason_of_words(alloc, words, steps)
}

fn reason_of_words(
    alloc: Global,
    words: &[&[u8]],
    steps: &mut Vec<usize>,
) -> Result<Option<Reason>, AllocError>
    ensures never { map (λ w. w.now) words.now ≡ codes "never" ∷ [] → IfOk result (λ o. IsSomeAnd o (λ x. reason_of x ≡ never)) }
    ensures twin { (p : List ℕ) → FitsPosition p → map (λ w. w.now) words.now ≡ codes "twin" ∷ position_text p ∷ [] → IfOk result (λ o. IsSomeAnd o (λ x. reason_of x ≡ twin p)) }
    ensures same { (i : ℕ) (p : List ℕ) → i < 2 ^ 64 → FitsPosition p → map (λ w. w.now) words.now ≡ codes "same" ∷ decimal i ∷ position_text p ∷ [] → IfOk result (λ o. IsSomeAnd o (λ x. reason_of x ≡ same i p)) }
    ensures all { (i : ℕ) (ps : List (List ℕ)) → i < 2 ^ 64 → All FitsPosition ps → names_legs (all i ps) ≡ true → map (λ w. w.now) words.now ≡ codes "all" ∷ decimal i ∷ map position_text ps → IfOk result (λ o. IsSomeAnd o (λ x. reason_of x ≡ all i ps)) }
    ensures legs { IfOk result (λ o. IfSome o (λ x. names_legs (reason_of x) ≡ true)) }
{
    let Some((kind, arguments)) = words.split_first() else {
        return Ok(None);
    };
    if *kind == b"twin".as_slice() {
        return read_twin(alloc, arguments, steps);
    }
    if *kind == b"same".as_slice() {
        return read_same(alloc, arguments, steps);
    }
    if *kind == b"all".as_slice() {
        return read_all(alloc, arguments, steps);
    }
    if *kind == b"never".as_slice() && arguments.is_empty() {
        return Ok(Some(Reason::Never));
    }
    Ok(None)
}

fn read_twin(
    alloc: Global,
    arguments: &[&[u8]],
    steps: &mut Vec<usize>,
) -> Result<Option<Reason>, AllocError>
    ensures meant { (p : List ℕ) → FitsPosition p → map (λ w. w.now) arguments.now ≡ position_text p ∷ [] → IfOk result (λ o. IsSomeAnd o (λ x. reason_of x ≡ twin p)) }
    ensures legs { IfOk result (λ o. IfSome o (λ x. names_legs (reason_of x) ≡ true)) }
{
    let [leg] = arguments else {
        return Ok(None);
    };
    let Some(leg) = read_position(alloc, leg, steps)? else {
        return Ok(None);
    };
    Ok(Some(Reason::Twin(leg)))
}

fn read_same(
    alloc: Global,
    arguments: &[&[u8]],
    steps: &mut Vec<usize>,
) -> Result<Option<Reason>, AllocError>
    ensures meant { (i : ℕ) (p : List ℕ) → i < 2 ^ 64 → FitsPosition p → map (λ w. w.now) arguments.now ≡ decimal i ∷ position_text p ∷ [] → IfOk result (λ o. IsSomeAnd o (λ x. reason_of x ≡ same i p)) }
    ensures legs { IfOk result (λ o. IfSome o (λ x. names_legs (reason_of x) ≡ true)) }
{
    let [index, leg] = arguments else {
        return Ok(None);
    };
    let Some(index) = read_number(index) else {
        return Ok(None);
    };
    let Some(leg) = read_position(alloc, leg, steps)? else {
        return Ok(None);
    };
    Ok(Some(Reason::Same(index, leg)))
}

fn read_all(
    alloc: Global,
    arguments: &[&[u8]],
    steps: &mut Vec<usize>,
) -> Result<Option<Reason>, AllocError>
    ensures meant { (i : ℕ) (ps : List (List ℕ)) → i < 2 ^ 64 → All FitsPosition ps → names_legs (all i ps) ≡ true → map (λ w. w.now) arguments.now ≡ decimal i ∷ map position_text ps → IfOk result (λ o. IsSomeAnd o (λ x. reason_of x ≡ all i ps)) }
    ensures legs { IfOk result (λ o. IfSome o (λ x. names_legs (reason_of x) ≡ true)) }
{
    let [index, legs @ ..] = arguments else {
        return Ok(None);
    };
    let Some(index) = read_number(index) else {
        return Ok(None);
    };
    let Some(legs) = read_positions(alloc, legs, steps)? else {
        return Ok(None);
    };
    let reason = Reason::All(index, legs);
    if reason.names_legs() {
        Ok(Some(reason))
    } else {
        Ok(None)
    }
}

/// The bytes behind an equals sign.
fn behind_sign(word: &[u8]) -> Option<&[u8]>
    ensures { (bytes : List ℕ) → word.now ≡ codes "=" ++ bytes → IsSomeAnd result (λ x. x.now ≡ bytes) }
{
    match word.split_first() {
        Some((b'=', later)) => Some(later),
        _ => None,
    }
}

/// The class whose word it is. Another word may give any.
fn read_class(alloc: Global, word: &[u8]) -> Result<Option<Vec<u8>>, AllocError>
    ensures { (class : List ℕ) → All (λ b. b < 256) class → word.now ≡ codes "=" ++ escaped class → IfOk result (λ o. option_map (λ v. v.items) o ≡ Some class) }
{
    match behind_sign(word) {
        Some(bytes) => unescaped(alloc, bytes),
        None => Ok(None),
    }
}

/// The number whose word is the first one, and the words behind it.
fn read_first<'a>(words: &'a [&'a [u8]]) -> Option<(usize, &'a [&'a [u8]])>
    ensures { (n : ℕ) (more : List (List ℕ)) → n < 2 ^ 64 → map (λ w. w.now) words.now ≡ decimal n ∷ more → IsSomeAnd result (λ x. (x.0 ≡ n) × (map (λ w. w.now) x.1.now ≡ more)) }
{
    let [word, behind @ ..] = words else {
        return None;
    };
    let number = read_number(word)?;
    Some((number, behind))
}

/// The eras whose words are the first ones: with no window one word for both.
fn read_eras<'a>(words: &'a [&'a [u8]], window: u64) -> Option<Eras<'a>>
    ensures meant { (s : SpotValue) (more : List (List ℕ)) → FitsSpot s → has_eras window s ≡ true → map (λ w. w.now) words.now ≡ era_words window s more →
        IsSomeAnd result (λ x. (x.era ≡ s.era) × (x.get_era ≡ s.get_era) × (map (λ w. w.now) x.behind.now ≡ more)) }
    ensures one { window ≡ 0 → IfSome result (λ x. x.get_era ≡ x.era) }
{
    let (era, behind) = read_first(words)?;
    if window == 0 {
        return Some(Eras {
            era,
            get_era: era,
            behind,
        });
    }
    let (get_era, behind) = read_first(behind)?;
    Some(Eras {
        era,
        get_era,
        behind,
    })
}

/// The pair whose words these are. Other words may give any.
fn pair_of_words(
    alloc: Global,
    words: &[&[u8]],
    window: u64,
    steps: &mut Vec<usize>,
) -> Result<Option<Pair>, AllocError>
    ensures meant { (p : PairValue) → IsPair window p → map (λ w. w.now) words.now ≡ pair_words window p → IfOk result (λ o. IsSomeAnd o (λ x. pair_of x ≡ p)) }
    ensures fits { IfOk result (λ o. IfSome o (λ x. IsPair window (pair_of x))) }
{
    let [route, class, eras @ ..] = words else {
        return Ok(None);
    };
    let Some(route) = read_number(route) else {
        return Ok(None);
    };
    let Some(eras) = read_eras(eras, window) else {
        return Ok(None);
    };
    let [leaf, reason @ ..] = eras.behind else {
        return Ok(None);
    };
    let Some(class) = read_class(alloc, class)? else {
        return Ok(None);
    };
    let Some(leaf) = read_position(alloc, leaf, steps)? else {
        return Ok(None);
    };
    let Some(reason) = read_reason(alloc, reason, steps)? else {
        return Ok(None);
    };
    let place = Place {
        route,
        class,
        era: eras.era,
        get_era: eras.get_era,
        leaf,
    };
    let pair = Pair::new(place, reason);
    Ok(Some(pair))
}

/// The pair whose line it is, without its end; `steps` is a buffer. Another line may give any.
pub fn parse(
    alloc: Global,
    line: &[u8],
    window: u64,
    steps: &mut Vec<usize>,
) -> Result<Option<Pair>, AllocError>
    ensures meant { (p : PairValue) → IsPair window p → line.now ≡ pair_text window p → IfOk result (λ o. IsSomeAnd o (λ x. pair_of x ≡ p)) }
    ensures fits { IfOk result (λ o. IfSome o (λ x. IsPair window (pair_of x))) }
{
    let words = words_of(alloc, line)?;
    pair_of_words(alloc, words.as_slice(), window, steps)
}
