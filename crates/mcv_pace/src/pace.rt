//! The lines of one second.

ghost use Rattle.std.specs.Prelude.{◌≡◌, ◌<◌};
ghost use Rattle.mcv_pace.specs.Pace.{admits, entered, left_over, with_line};

/// The most lines that are said in a second.
pub const LINE_LIMIT: u64 = 10;

/// How many lines were said in a second, and how many weren't.
#[derive(Clone, Copy, Debug, Default, PartialEq, Eq)]
pub struct Pace {
    /// The second, counted from anywhere.
    pub second: u64,
    /// Lines that were said in it.
    pub said: u64,
    /// Lines that weren't.
    pub held: u64,
}

impl Pace {
    /// Comes to this second. How many lines weren't said in the one before, which is to be told now.
    pub fn enter(&mut self, second: u64) -> u64
        ensures pace { self.new ≡ entered self.old second }
        ensures left { result ≡ left_over self.old second }
    {
        if self.second == second {
            return 0;
        }
        let held = self.held;
        *self = Pace {
            second,
            said: 0,
            held: 0,
        };
        held
    }

    /// Whether a line that comes now is said. It is counted in any case, up to 2^64 - 1.
    pub fn admit(&mut self) -> bool
        ensures said { result ≡ admits self.old }
        ensures pace { self.old.held < 18446744073709551615 → self.new ≡ with_line self.old }
    {
        if self.said < LINE_LIMIT {
            self.said += 1;
            return true;
        }
        self.held = self.held.saturating_add(1);
        false
    }
}
