// Where two footprints conflict.
ghost use Rattle.std.specs.Prelude.{◌≡◌, Option};
ghost use Rattle.std.specs.Option.{option_map};
ghost use Rattle.std.specs.List.{list_any};
ghost use Rattle.race_check.specs.Access.{location_of, touch_of, touches_of};
ghost use Rattle.race_check.specs.Conflict.{Conflict, Hits, IsLeast, precedes, is_at, hit, least};

use crate::access::{Access, Location};

/// Whether a location comes before another or is the same: by global, then by index.
fn precedes(a: Location, b: Location) -> bool
    ensures { result ≡ precedes (location_of a) (location_of b) }
{
    a.global < b.global || (a.global == b.global && a.index <= b.index)
}

fn is_at(location: Location, access: &Access) -> bool
    ensures { result ≡ is_at (location_of location) (touch_of access.now) }
{
    access.location.global == location.global && access.location.index == location.index
}

/// Whether one of the accesses is to the location.
fn touches(accesses: &[Access], location: Location) -> bool
    ensures { result ≡ list_any (is_at (location_of location)) (touches_of accesses.now) }
{
    for access in accesses {
        if is_at(location, access) {
            return true;
        }
    }
    false
}

/// The location of an access, if it writes there and the others touch it.
fn hit(access: &Access, others: &[Access]) -> Option<Location>
    ensures { option_map location_of result ≡ hit (touch_of access.now) (touches_of others.now) }
{
    if access.written && touches(others, access.location) {
        Some(access.location)
    } else {
        None
    }
}

/// The lesser of two locations, or the one that is there.
fn least(a: Option<Location>, b: Option<Location>) -> Option<Location>
    ensures { option_map location_of result ≡ least (option_map location_of a) (option_map location_of b) }
{
    match a {
        None => b,
        Some(p) => match b {
            None => Some(p),
            Some(q) => if precedes(p, q) { Some(p) } else { Some(q) },
        },
    }
}

/// The least location that the first accesses write and the second ones touch.
fn least_hit(first: &[Access], second: &[Access]) -> Option<Location>
    ensures { IsLeast (Hits (touches_of first.now) (touches_of second.now)) (option_map location_of result) }
{
    let mut best = None;
    for access in first {
        best = least(best, hit(access, second));
    }
    best
}

/// The least location that both touch and one of them writes. A footprint writes at most once, so this takes time in
/// proportion to both.
pub fn least_conflict(first: &[Access], second: &[Access]) -> Option<Location>
    ensures { IsLeast (Conflict (touches_of first.now) (touches_of second.now)) (option_map location_of result) }
{
    least(least_hit(first, second), least_hit(second, first))
}
