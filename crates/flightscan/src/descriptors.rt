//! File descriptors: how many a server may need, and what is said where the system lets it have
//! fewer.

ghost use Rattle.std.specs.Prelude.{◌≡◌, ◌<◌, ◌↔◌, IfOk, IfSome, IsSome, string_bytes};
ghost use Rattle.flightscan.specs.Descriptors.{limit_line, needed_for};

use libc::types::rlimit;
use std::alloc::{AllocError, Global};

// A seat has one of its listener and two of its connection.
const OF_SEAT: u64 = 3;

// The standard streams, the null device for each, the listener, and some for a moment.
const OF_SERVER: u64 = 16;

/// How many file descriptors a server of so many seats may need.
pub fn descriptors_needed(seats: u32) -> u64
    ensures { result ≡ needed_for seats }
{
    OF_SEAT * u64::from(seats) + OF_SERVER
}

/// How many file descriptors the system lets this process have, where it tells.
pub fn descriptor_limit() -> Option<u64> {
    let mut limit = rlimit {
        rlim_cur: 0,
        rlim_max: 0,
    };
    match libc::getrlimit(libc::RLIMIT_NOFILE, &mut limit) {
        0 => Some(limit.rlim_cur),
        _ => None,
    }
}

/// The line that says so where a limit is too small for a server of so many seats.
///
/// # Errors
///
/// `AllocError` where memory is refused.
pub fn small_limit(alloc: Global, limit: u64, seats: u32) -> Result<Option<String>, AllocError>
    ensures is_told { IfOk result (λ line. IsSome line ↔ limit < needed_for seats) }
    ensures line { IfOk result
        (λ line. IfSome line (λ text. string_bytes text ≡ limit_line limit seats)) }
{
    let needed = descriptors_needed(seats);
    if limit >= needed {
        return Ok(None);
    }
    let line = format!(in alloc;
        "the limit of file descriptors is {limit}, and {seats} seats may need {needed}\n"
    )?;
    Ok(Some(line))
}
