//! Types that contain themselves, told by the places of their parts.
#![tactic(auto)]

ghost use Rattle.std.specs.Prelude.{◌≡◌, ℕ, ◌<◌, [], List as Listed, length, false, IfOk, OnOk};
ghost use Rattle.std.specs.List.{flat_map, list_any, fold};
ghost use Rattle.item_names.specs.Circles.{parts_at, has, leads, mark, marked, rank_at, are_below, descends_from, may_lead};

use ir_core::{List, OutOfMemory};
use std::alloc::Global;

fn parts_at(parts: &[List<usize>], at: usize) -> &[usize]
    ensures { result.now ≡ parts_at parts.now at }
{
    match parts.get(at) {
        None => &[],
        Some(some) => some.as_slice(),
    }
}

fn none_seen(alloc: Global, types: usize) -> Result<List<bool>, OutOfMemory>
    ensures { IfOk result (λ seen. (length seen ≡ types) × ((q : ℕ) → marked seen q ≡ false)) }
{
    let mut seen = List::new(alloc);
    for _ in 0..types {
        seen.push(false)?;
    }
    Ok(seen)
}

fn add_unseen(
    seen: &mut List<bool>,
    front: &mut List<usize>,
    places: &[usize],
) -> Result<(), OutOfMemory>
    ensures { OnOk result ((seen.new, front.new) ≡ fold mark (seen.old, front.old) places.now) }
{
    for place in places {
        match seen.get(*place) {
            Some(false) => {
                seen.set(*place, true);
                front.push(*place)?;
            }
            _ => {}
        }
    }
    Ok(())
}

// The parts of the types of the front that weren't seen before.
fn next_front(
    alloc: Global,
    parts: &[List<usize>],
    seen: &mut List<bool>,
    front: &[usize],
) -> Result<List<usize>, OutOfMemory>
    ensures { IfOk result (λ next. (seen.new, next) ≡ fold mark (seen.old, []) (flat_map (parts_at parts.now) front.now)) }
{
    let mut next = List::new(alloc);
    for place in front {
        add_unseen(seen, &mut next, parts_at(parts, *place))?;
    }
    Ok(next)
}

fn is_among(to: usize, places: &[usize]) -> bool
    ensures { result ≡ has to places.now }
{
    for place in places {
        if *place == to {
            return true;
        }
    }
    false
}

/// Whether one of the types leads to the one at a place by way of parts.
fn is_reached(
    alloc: Global,
    parts: &[List<usize>],
    from: &[usize],
    to: usize,
) -> Result<bool, OutOfMemory>
    requires { to < length parts.now }
    ensures { IfOk result (λ b. b ≡ list_any (leads parts.now to (length parts.now)) from.now) }
{
    let mut seen = none_seen(alloc, parts.len())?;
    let mut front = List::new(alloc);
    add_unseen(&mut seen, &mut front, from)?;
    let mut left = parts.len();
    while left > 0 {
        if is_among(to, front.as_slice()) {
            return Ok(true);
        }
        front = next_front(alloc, parts, &mut seen, front.as_slice())?;
        left -= 1;
    }
    Ok(is_among(to, front.as_slice()))
}

/// Whether the type at a place contains itself.
pub(crate) fn contains_itself(
    alloc: Global,
    parts: &[List<usize>],
    at: usize,
) -> Result<bool, OutOfMemory>
    requires { at < length parts.now }
    ensures { IfOk result (λ b. b ≡ list_any (leads parts.now at (length parts.now)) (parts_at parts.now at)) }
{
    is_reached(alloc, parts, parts_at(parts, at), at)
}

fn rank_at(ranks: &[usize], at: usize) -> usize
    ensures { result ≡ rank_at ranks.now at }
{
    match ranks.get(at) {
        None => 0,
        Some(rank) => *rank,
    }
}

fn are_below(ranks: &[usize], at: usize, places: &[usize]) -> bool
    ensures { result ≡ are_below ranks.now at places.now }
{
    for place in places {
        if rank_at(ranks, at) < rank_at(ranks, *place) {
            return false;
        }
    }
    true
}

/// Whether no part has a greater rank than the type that has it.
pub(crate) fn is_descending(parts: &[List<usize>], ranks: &[usize]) -> bool
    ensures { result ≡ descends_from 0 parts.now ranks.now }
{
    for at in 0..parts.len() {
        if !are_below(ranks, at, parts[at].as_slice()) {
            return false;
        }
    }
    true
}

/// Whether a part of the type at a place has the rank of the type or a greater one.
pub(crate) fn may_lead(parts: &[List<usize>], ranks: &[usize], at: usize) -> bool
    ensures { result ≡ may_lead ranks.now at (parts_at parts.now at) }
{
    for place in parts_at(parts, at) {
        if rank_at(ranks, at) <= rank_at(ranks, *place) {
            return true;
        }
    }
    false
}
