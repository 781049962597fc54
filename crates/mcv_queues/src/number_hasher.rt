//! The hash of legs and calls by their numbers.

ghost use Rattle.std.specs.Prelude.{◌≡◌, ◌*◌, ◌%◌, ◌^◌};
ghost use Rattle.mcv_queues.specs.NumberHash.{number_of};

use std::hash::Hasher;

/// Hashes one number by a multiplication. The numbers of legs and calls are counted up, and no client picks them.
#[derive(Clone, Copy, Drop)]
pub struct NumberHasher {
    number: u64,
}

/// 2^64 divided by the golden ratio: it spreads numbers that follow one another.
const MULTIPLIER: u64 = 0x9e37_79b9_7f4a_7c15;

impl Default for NumberHasher {
    ghost is_default = { λ h. h ≡ record { number = 0 } };

    fn default() -> NumberHasher {
        NumberHasher { number: 0 }
    }
}

/// The number of which these are the eight bytes, the lowest first; 0 of another count of bytes.
#[inline(always)]
fn number_of(bytes: &[u8]) -> u64
    ensures { result ≡ number_of bytes.now }
{
    if bytes.len() != 8 {
        return 0;
    }
    u64::from_le_bytes([
        bytes[0], bytes[1], bytes[2], bytes[3], bytes[4], bytes[5], bytes[6], bytes[7],
    ])
}

impl Hasher for NumberHasher {
    ghost write = { λ h bytes. record { number = number_of bytes } };

    ghost finish = { λ h. (h.number * 0x9e37_79b9_7f4a_7c15) % 2 ^ 64 };

    #[inline(always)]
    fn finish(&self) -> u64 {
        self.number.wrapping_mul(MULTIPLIER)
    }

    #[inline(always)]
    fn write(&mut self, bytes: &[u8]) {
        self.number = number_of(bytes);
    }
}
