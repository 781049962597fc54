//! Laws of the readings of a stream, and of the texts that legs send.

ghost use Rattle.std.specs.Prelude.{◌≡◌, ◌∷◌, [], ◌++◌, ◌⊎◌, List, ℕ};
ghost use Rattle.mcv_text.specs.Leg.{IsWholeLeg, LegValue, leg_ask, leg_text};
ghost use Rattle.mcv_text.specs.Request.{ItemValue, asked, asking};
ghost use Rattle.mcv_text.specs.Stream.{Awaits, EndsRefused, Failed, Held, Reads, followed};

/// A stream has at most one reading.
pub fn one_reading()
    ensures { (from : Awaits) (xs ys : List ItemValue) (to other : Awaits) → Reads from xs to → Reads from ys other → (xs ≡ ys) × (to ≡ other) }
{}

/// Two pieces, one behind the other, have the items of both.
pub fn any_pieces()
    ensures { (from mid to : Awaits) (a b : List ℕ) (xs ys : List ItemValue) → Reads (followed from a) xs mid → Reads (followed mid b) ys to → Reads (followed from (a ++ b)) (xs ++ ys) to }
{}

/// A reader that hasn't failed fails behind refusals 2 and 3 alone.
pub fn failing_is_refused()
    ensures { (from : Awaits) (items : List ItemValue) → Reads from items Failed → (from ≡ Failed) ⊎ EndsRefused items }
{}

/// What a leg with the fields of its operation sends is its request, and nothing more.
pub fn leg_texts_are_read()
    ensures { (leg : LegValue) → IsWholeLeg leg → Reads (Held (leg_text leg)) (asked (asking (leg_ask leg)) ∷ []) (Held []) }
{}
