// Which globals have a discipline.
ghost use Rattle.std.specs.Prelude.{◌≡◌, ◌≤◌, ◌+◌, ◌++◌, not, map, IfOk};
ghost use Rattle.std.specs.List.{list_any, flat_map, range_with_len};
ghost use Rattle.lock_discipline.specs.Discipline as spec;
ghost use Rattle.lockset_check.specs.Views.{seen_of, access_of};

use crate::progress::{Access, Seen};
use crate::sets::has;
use std::alloc::AllocError;

fn is_counted(x: usize, a: &Access) -> bool
    ensures { result ≡ spec.is_counted x (access_of a.now) }
{
    a.global as usize == x && !a.quiet
}

fn is_write(x: usize, s: &Seen) -> bool
    ensures { result ≡ spec.is_write x (seen_of s.now) }
{
    match s {
        Seen::Touches(a) => is_counted(x, a) && a.written,
        Seen::TooDeep => false,
    }
}

fn is_others(x: usize, f: usize, s: &Seen) -> bool
    ensures { result ≡ spec.is_others x f (seen_of s.now) }
{
    match s {
        Seen::Touches(a) => is_counted(x, a) && a.function != f,
        Seen::TooDeep => false,
    }
}

fn lacks(x: usize, m: usize, s: &Seen) -> bool
    ensures { result ≡ spec.lacks x m (seen_of s.now) }
{
    match s {
        Seen::Touches(a) => is_counted(x, a) && !has(&a.held, m),
        Seen::TooDeep => false,
    }
}

fn any_write(x: usize, seen: &[Seen]) -> bool
    ensures { result ≡ list_any (spec.is_write x) (map seen_of seen.now) }
{
    match seen.split_first() {
        Some((s, rest)) => is_write(x, s) || any_write(x, rest),
        None => false,
    }
}

fn any_others(x: usize, f: usize, seen: &[Seen]) -> bool
    ensures { result ≡ list_any (spec.is_others x f) (map seen_of seen.now) }
{
    match seen.split_first() {
        Some((s, rest)) => is_others(x, f, s) || any_others(x, f, rest),
        None => false,
    }
}

fn any_lacks(x: usize, m: usize, seen: &[Seen]) -> bool
    ensures { result ≡ list_any (spec.lacks x m) (map seen_of seen.now) }
{
    match seen.split_first() {
        Some((s, rest)) => lacks(x, m, s) || any_lacks(x, m, rest),
        None => false,
    }
}

/// Whether all counted accesses are of the walk of one of these functions.
fn is_owned(x: usize, seen: &[Seen], owners: &[usize]) -> bool
    ensures { result ≡ spec.is_owned x (map seen_of seen.now) owners.now }
{
    match owners.split_first() {
        Some((f, rest)) => !any_others(x, *f, seen) || is_owned(x, seen, rest),
        None => false,
    }
}

/// Whether one of so many mutexes, from a number on, is held at all counted accesses.
fn is_guarded(x: usize, seen: &[Seen], m: usize, mutexes: usize) -> bool
    requires { m + mutexes ≤ 18446744073709551615 }
    ensures { result ≡ list_any (λ m. not (list_any (spec.lacks x m) (map seen_of seen.now))) (range_with_len m mutexes) }
{
    mutexes != 0 && (!any_lacks(x, m, seen) || is_guarded(x, seen, m + 1, mutexes - 1))
}

/// Whether a global has a discipline, these being the functions that exactly one hardware thread runs.
pub(crate) fn has_discipline(owners: &[usize], mutexes: usize, seen: &[Seen], x: usize) -> bool
    ensures { result ≡ spec.has_discipline owners.now mutexes (map seen_of seen.now) x }
{
    !any_write(x, seen) || is_owned(x, seen, owners) || is_guarded(x, seen, 0, mutexes)
}

/// The least of some offsets.
pub(crate) fn least_from(best: u32, offsets: &[u32]) -> u32
    ensures { result ≡ spec.least_from best offsets.now }
{
    match offsets.split_first() {
        Some((offset, rest)) => least_from(if *offset < best { *offset } else { best }, rest),
        None => best,
    }
}

/// 0 of none.
pub(crate) fn least(offsets: &[u32]) -> u32
    ensures { result ≡ spec.least offsets.now }
{
    match offsets.split_first() {
        Some((first, rest)) => least_from(*first, rest),
        None => 0,
    }
}

/// Appends the offsets of a global's counted accesses.
pub(crate) fn push_offsets(
    x: usize,
    seen: &[Seen],
    offsets: &mut Vec<u32>,
) -> Result<(), AllocError>
    ensures { IfOk result (λ _. offsets.new.items ≡ offsets.old.items ++ flat_map (spec.offset_of x) (map seen_of seen.now)) }
{
    if let Some((s, rest)) = seen.split_first() {
        if let Seen::Touches(a) = s {
            if is_counted(x, a) {
                offsets.push(a.offset)?;
            }
        }
        push_offsets(x, rest, offsets)?;
    }
    Ok(())
}

fn is_too_deep(s: &Seen) -> bool
    ensures { result ≡ spec.is_too_deep (seen_of s.now) }
{
    match s {
        Seen::Touches(_) => false,
        Seen::TooDeep => true,
    }
}

/// Whether a call was deeper than there are functions.
pub(crate) fn any_too_deep(seen: &[Seen]) -> bool
    ensures { result ≡ list_any spec.is_too_deep (map seen_of seen.now) }
{
    match seen.split_first() {
        Some((s, rest)) => is_too_deep(s) || any_too_deep(rest),
        None => false,
    }
}
