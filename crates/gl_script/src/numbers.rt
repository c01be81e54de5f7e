//! The numbers of replicas in a line.
ghost use Rattle.std.specs.Prelude.{◌≡◌, ◌&&◌, nat_lt, nat_le, IsTrue, Some, None, if◌then◌else◌};
ghost use Rattle.gl_language.specs.Reading.Token.{digits_value};
ghost use Rattle.gl_calculus.specs.Edits.Limits.{max_time};
ghost use Rattle.gl_protocol.specs.Framing.Pieces.{is_number};
ghost use Rattle.gl_script.specs.Numbers.{is_site, is_time, stamp_in};

use crate::header::is_number;

// The greatest time of a stamp.
const MAX_TIME: u64 = 1_000_000_000_000;

/// The site that digits write: at most 65,535, without a leading zero.
pub(crate) fn site_of(digits: &str) -> Option<u16>
    ensures { result ≡ (if is_site digits.now then Some (digits_value digits.now) else None) }
{
    if !is_number(digits.as_bytes()) {
        return None;
    }
    digits.parse::<u16>().ok()
}

// The time that digits write: from 1 to `MAX_TIME`, without a leading zero.
fn time_of(digits: &str) -> Option<u64>
    ensures { result ≡ (if is_time digits.now then Some (digits_value digits.now) else None) }
{
    if !is_number(digits.as_bytes()) {
        return None;
    }
    match digits.parse::<u64>() {
        Ok(time) => in_times(time),
        Err(_) => None,
    }
}

fn in_times(time: u64) -> Option<u64>
    ensures { result ≡ (if nat_lt 0 time && nat_le time max_time then Some time else None) }
{
    if 1 <= time && time <= MAX_TIME {
        Some(time)
    } else {
        None
    }
}

/// The time and the site of a stamp, where these digits write one.
pub(crate) fn stamp_of(time: &str, site: &str) -> Option<(u64, u16)>
    ensures { IsTrue (is_number time.now && is_number site.now)
        → result ≡ stamp_in time.now site.now }
{
    match time_of(time) {
        None => None,
        Some(time) => match site_of(site) {
            None => None,
            Some(site) => Some((time, site)),
        },
    }
}
