//! The numbers of transfers, each of which is used once: those of a day follow those of the day before.

ghost use Rattle.std.specs.Prelude.{◌≡◌, ◌*◌, ◌^◌, ◌<◌};

/// How many tellers there are, from 1.
pub const TELLERS: u32 = 4;

/// How many stores there are, from 1.
pub const STORES: u32 = 3;

/// How many transfers a teller makes on a day.
pub const TRANSFERS: u32 = 64;

/// How many days a folder has: a teller's transfers have numbers of 32 bits.
pub const DAYS: u32 = 1 << 26;

/// The number of a day's first transfer. The numbers of the day are those below the next day's first one.
pub fn first_of(day: u32) -> u32
    requires { day < 2 ^ 26 }
    ensures { result ≡ day * 64 }
{
    day * TRANSFERS
}
