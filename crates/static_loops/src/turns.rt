//! Which turns of a loop a thread makes (OpenMP 5.1, "worksharing-loop construct").
//!
//! Turns are counted without a sign, and numbers of the loop are computed exactly in 128 bits, where none overflows; what is stored for a
//! thread is what is left of them in 32 bits.
ghost use Rattle.std.specs.Prelude.{◌/◌, ◌%◌, ◌≡◌, ◌+◌, ◌^◌, ◌<◌, ◌≤◌, ◌≢◌, pos, ◌+ℤ◌, ◌*ℤ◌, FitsSigned, unsigned_abs};
ghost use Rattle.std.specs.Int.{w32};
ghost use Rattle.mem_model.specs.Schedules as spec;
ghost use Rattle.static_loops.specs.Shares.{loop_seen, share_seen, turns_seen, IsLoop};

use mem_model::wrapped;

/// A loop of numbers from `lower` to `upper` by steps of `increment`. Each is a number of 32 bits with a sign.
#[derive(Clone, Copy)]
pub struct Loop {
    pub lower: i64,
    pub upper: i64,
    /// Not 0.
    pub increment: i64,
}

/// A thread's number, and how many threads there are.
#[derive(Clone, Copy)]
pub struct Share {
    pub number: u32,
    /// Not 0.
    pub count: u32,
}

/// The first and the last number of a thread's turns, as words of 32 bits.
#[derive(Clone, Copy)]
pub struct Bounds {
    pub lower: u64,
    pub upper: u64,
}

/// What a thread is given of a loop.
#[derive(Clone, Copy)]
pub struct Turns {
    /// Whether it makes the last turn.
    pub last: bool,
    /// Its own bounds; none where the loop has no turns.
    pub bounds: Option<Bounds>,
    /// The way from its turns to its next ones, as a word of 32 bits.
    pub stride: u64,
}

/// The way that so many steps go.
fn way(steps: i128, increment: i64) -> i128
    requires steps { unsigned_abs steps ≤ 2 ^ 65 }
    requires increment { FitsSigned w32 increment }
    ensures value { result ≡ steps *ℤ increment }
    ensures small { unsigned_abs result ≤ 2 ^ 96 }
{
    steps * i128::from(increment)
}

/// The number that so many turns begin at, from a number on.
fn after_turns(from: i128, turns: u128, increment: i64) -> i128
    requires from { unsigned_abs from ≤ 2 ^ 97 }
    requires turns { turns ≤ 2 ^ 65 }
    requires increment { FitsSigned w32 increment }
    ensures value { result ≡ from +ℤ (pos turns *ℤ increment) }
    ensures small { unsigned_abs result ≤ unsigned_abs from + 2 ^ 96 }
{
    from + way(turns as i128, increment)
}

/// Whether a loop has turns.
fn has_turns(range: Loop) -> bool
    ensures { result ≡ spec.has_turns (loop_seen range) }
{
    if range.increment < 0 {
        range.upper <= range.lower
    } else {
        range.lower <= range.upper
    }
}

/// How many turns a loop has.
fn trip_count(range: Loop) -> u64
    requires { IsLoop range }
    ensures value { result ≡ spec.trip_count (loop_seen range) }
    ensures small { result ≤ 2 ^ 32 }
{
    if has_turns(range) {
        ((range.upper - range.lower) / range.increment).unsigned_abs() + 1
    } else {
        0
    }
}

/// How many turns a chunk has: 1 where a number below 1 is given.
fn chunk_or_one(chunk: i64) -> u64
    requires { FitsSigned w32 chunk }
    ensures value { result ≡ spec.chunk_or_one chunk }
    ensures small { (0 < result) × (result ≤ 2 ^ 31) }
{
    if chunk < 1 { 1 } else { chunk.unsigned_abs() }
}

/// A number of turns divided by a number of threads; 0 where there are none.
fn quotient(trips: u64, count: u64) -> u64
    ensures { result ≡ trips / count }
{
    if count == 0 { 0 } else { trips / count }
}

/// The rest of that division; all of them where there are no threads.
fn rest(trips: u64, count: u64) -> u64
    ensures { result ≡ trips % count }
{
    if count == 0 { trips } else { trips % count }
}

/// The turns of a thread where the chunks go to the threads in turn.
fn chunked(range: Loop, share: Share, chunk: u64, trips: u64) -> Turns
    requires range { IsLoop range }
    requires chunk { (0 < chunk) × (chunk ≤ 2 ^ 31) }
    requires trips { (0 < trips) × (trips ≤ 2 ^ 32) }
    ensures { result ≡ turns_seen (spec.chunked (loop_seen range) (share_seen share) chunk trips) }
{
    let number = u64::from(share.number);
    let count = u64::from(share.count);
    let begin = u128::from(number * chunk);
    let lower = after_turns(i128::from(range.lower), begin, range.increment);
    let upper = after_turns(lower, u128::from(chunk - 1), range.increment);
    Turns {
        last: number == rest((trips - 1) / chunk, count),
        bounds: Some(Bounds {
            lower: wrapped(32, lower),
            upper: wrapped(32, upper),
        }),
        stride: wrapped(32, way(i128::from(count * chunk), range.increment)),
    }
}

/// How many turns the piece of a thread has: the first pieces have one more.
fn piece(trips: u64, share: Share) -> u64
    requires trips { trips ≤ 2 ^ 32 }
    ensures value { result ≡ spec.piece trips (share_seen share) }
    ensures small { result ≤ 2 ^ 33 }
{
    let count = u64::from(share.count);
    if u64::from(share.number) < rest(trips, count) {
        quotient(trips, count) + 1
    } else {
        quotient(trips, count)
    }
}

/// How many turns come before the piece of a thread.
fn piece_begin(trips: u64, share: Share) -> u128
    requires trips { trips ≤ 2 ^ 32 }
    ensures value { result ≡ spec.piece_begin trips (share_seen share) }
    ensures small { result ≤ 2 ^ 65 }
{
    let number = u64::from(share.number);
    let count = u64::from(share.count);
    let longer = number.min(rest(trips, count));
    u128::from(number) * u128::from(quotient(trips, count)) + u128::from(longer)
}

/// The turns of a thread where each thread has one piece.
fn in_pieces(range: Loop, share: Share, trips: u64) -> Turns
    requires range { IsLoop range }
    requires trips { trips ≤ 2 ^ 32 }
    ensures { result ≡ turns_seen (spec.in_pieces (loop_seen range) (share_seen share) trips) }
{
    let begin = piece_begin(trips, share);
    let size = piece(trips, share);
    let lower = after_turns(i128::from(range.lower), begin, range.increment);
    let upper = lower + way(i128::from(size) - 1, range.increment);
    Turns {
        last: size != 0 && begin + u128::from(size) == u128::from(trips),
        bounds: Some(Bounds {
            lower: wrapped(32, lower),
            upper: wrapped(32, upper),
        }),
        stride: wrapped(32, way(i128::from(trips), range.increment)),
    }
}

/// The turns that a thread makes by a schedule: 33 is chunks in turn, and every other one gives each thread one piece. The chunk is a
/// number of 32 bits with a sign.
pub fn turns_of(schedule: u64, range: Loop, share: Share, chunk: i64) -> Turns
    requires range { IsLoop range }
    requires chunk { FitsSigned w32 chunk }
    ensures { result ≡ turns_seen (spec.turns schedule (loop_seen range) (share_seen share) chunk) }
{
    let trips = trip_count(range);
    if trips == 0 {
        return Turns {
            last: false,
            bounds: None,
            stride: wrapped(32, i128::from(range.increment)),
        };
    }
    if schedule == 33 {
        chunked(range, share, chunk_or_one(chunk), trips)
    } else {
        in_pieces(range, share, trips)
    }
}
