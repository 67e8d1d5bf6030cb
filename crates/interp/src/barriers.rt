//! Barriers of a team: when one is complete, and that it then opens.
ghost use Rattle.std.specs.Prelude.{◌≡◌, length, map};
ghost use Rattle.std.specs.List.{filter, list_all};
ghost use Rattle.team_model.specs.declared.Stand.{Stand as StandData};
ghost use Rattle.team_model.specs.Team as spec;

use ir_core::List;
use team_model::{Barrier, Stand};

/// Whether two barriers are of one kind.
fn same_kind(a: Barrier, b: Barrier) -> bool
    ensures { result ≡ spec.same_kind a b }
{
    match a {
        Barrier::Explicit => matches!(b, Barrier::Explicit),
        Barrier::Team => matches!(b, Barrier::Team),
        Barrier::Join => matches!(b, Barrier::Join),
        Barrier::Guard => matches!(b, Barrier::Guard),
    }
}

/// Whether a thread waits at a barrier of this kind.
fn waits_at(kind: Barrier, stand: Stand) -> bool
    ensures { result ≡ spec.waits_at kind stand }
{
    match stand {
        Stand::Waits(other) => same_kind(kind, other),
        Stand::Runs | Stand::Ended => false,
    }
}

/// Whether a thread waits at the team's barrier, or has ended.
fn waits_or_gone(stand: Stand) -> bool
    ensures { result ≡ spec.waits_or_gone stand }
{
    match stand {
        Stand::Waits(other) => same_kind(Barrier::Team, other),
        Stand::Runs => false,
        Stand::Ended => true,
    }
}

/// How many threads wait at a barrier of this kind.
fn waiting(stands: &[Stand], kind: Barrier) -> usize
    ensures { result ≡ length (filter (spec.waits_at kind) stands.now) }
{
    stands
        .iter()
        .filter(|stand| waits_at(kind, **stand))
        .count()
}

/// Whether each thread waits at a barrier of this kind.
fn all_wait(stands: &[Stand], kind: Barrier) -> bool
    ensures { result ≡ list_all (spec.waits_at kind) stands.now }
{
    stands.iter().all(|stand| waits_at(kind, *stand))
}

/// Whether each thread that has not ended waits at the team's barrier.
fn all_wait_or_gone(stands: &[Stand]) -> bool
    ensures { result ≡ list_all spec.waits_or_gone stands.now }
{
    stands.iter().all(|stand| waits_or_gone(*stand))
}

/// Whether a barrier is complete, in a region of so many threads.
fn is_complete(stands: &[Stand], kind: Barrier, count: u32) -> bool
    ensures { result ≡ spec.is_complete kind count stands.now }
{
    match kind {
        Barrier::Explicit => waiting(stands, Barrier::Explicit) == count as usize,
        Barrier::Team => all_wait_or_gone(stands),
        Barrier::Join => all_wait(stands, Barrier::Join),
        Barrier::Guard => all_wait(stands, Barrier::Guard),
    }
}

/// How a thread stands when barriers of this kind open.
fn goes_again(kind: Barrier, stand: Stand) -> Stand
    ensures { result ≡ spec.goes_again kind stand }
{
    if waits_at(kind, stand) {
        Stand::Runs
    } else {
        stand
    }
}

/// Lets the threads that wait at a barrier of this kind go on.
fn wake(stands: &mut List<Stand>, kind: Barrier)
    ensures { stands.new ≡ map (spec.goes_again kind) stands.old }
{
    for at in 0..stands.len() {
        if let Some(stand) = stands.get(at) {
            let next = goes_again(kind, *stand);
            stands.set(at, next);
        }
    }
}

/// Opens a barrier of this kind where it is complete, in a region of so many threads.
pub(crate) fn open(stands: &mut List<Stand>, kind: Barrier, count: u32)
    ensures { stands.new ≡ spec.opened kind count stands.old }
{
    if is_complete(stands.as_slice(), kind, count) {
        wake(stands, kind);
    }
}
