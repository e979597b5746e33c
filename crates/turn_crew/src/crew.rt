//! The crew.
ghost use Rattle.std.specs.Prelude.{◌≡◌, ℕ, ◌+◌, ◌<◌, ◌≤◌, true, All, IfOk, Some, vec_len, slice_index_or};
ghost use Rattle.turn_cell.specs.Schedules.{IsFront};
ghost use Rattle.turn_crew.specs.Crew.{HasEnded, HasWorked, IsJob};

use crate::gate::Gate;
use crate::worker::work;
use crossbeam_utils::Backoff;
use flr_base::NoMemory;
use std::alloc::Global;
use std::sync::Wait;
use std::sync::atomic::AtomicBool;
use std::thread;
use std::thread::Threads;
use turn_cell::{Stepped, TurnCell, TurnOut, TurnSeat};

/// What a worker begins with.
#[derive(Drop)]
struct Job<W: Stepped> {
    client: u8,
    seat: TurnSeat<W>,
}

/// What a worker ends with. `ended` says that its client has no command left.
#[derive(Drop)]
struct Done<W: Stepped> {
    seat: TurnSeat<W>,
    ended: bool,
}

/// Has every client from 1 to `clients` make its steps, each on a thread of its own, until none has a
/// command left, and gives the value back. It may wait without end. Where memory runs out, in the
/// value too, the value is dropped.
pub fn run_crew<W: Stepped + Send, G: Gate + Sync, R: Threads + Wait + Sync>(
    rt: &R,
    alloc: Global,
    world: W,
    clients: u8,
    gate: &G,
) -> Result<W, NoMemory>
    requires clients { (1 ≤ clients) × (clients ≤ 16) }
    ensures origin { IfOk result (λ value. W.origin value ≡ W.origin world) }
    ensures front { IfOk result (λ value. IsFront (W.schedule world) (W.schedule value)) }
    ensures ended { IfOk result (λ value. (client : ℕ) → 1 ≤ client → client ≤ clients
        → HasEnded W.allowed (W.origin world) (W.schedule world) client (W.schedule value)) }
{
    let (cell, seat) = TurnCell::new(alloc, world)?;
    let (seat, jobs) = jobs(alloc, &cell, seat, clients)?;
    let (seat, all) = work_all(rt, &cell, seat, jobs, gate)?;
    if !all {
        return Err(NoMemory);
    }
    Ok(close(rt, cell, seat))
}

// A job for each client.
fn jobs<W: Stepped>(
    alloc: Global,
    cell: &TurnCell<W>,
    mut seat: TurnSeat<W>,
    clients: u8,
) -> Result<(TurnSeat<W>, Vec<Job<W>>), NoMemory>
    requires seat_of_cell { seat.cell ≡ cell.now }
    ensures same { IfOk result (λ r. r.0 ≡ seat) }
    ensures count { IfOk result (λ r. vec_len r.1 ≡ clients) }
    ensures jobs { IfOk result (λ r. (i : ℕ) (d : _) → i < clients
        → IsJob seat i (slice_index_or r.1.items i d).client (slice_index_or r.1.items i d).seat) }
{
    let mut jobs = Vec::new(alloc);
    for i in 0..clients {
        let (first, second) = cell.split(seat);
        seat = first;
        jobs.push(Job {
            client: i + 1,
            seat: second,
        })?;
    }
    Ok((seat, jobs))
}

// Does the jobs, each on a thread, and joins their seats. Whether all clients have ended.
fn work_all<W: Stepped + Send, G: Gate + Sync, R: Threads + Wait + Sync>(
    rt: &R,
    cell: &TurnCell<W>,
    seat: TurnSeat<W>,
    jobs: Vec<Job<W>>,
    gate: &G,
) -> Result<(TurnSeat<W>, bool), NoMemory>
    requires seat_of_cell { seat.cell ≡ cell.now }
    requires jobs { (i : ℕ) (d : _) → i < vec_len jobs
        → IsJob seat i (slice_index_or jobs.items i d).client (slice_index_or jobs.items i d).seat }
    ensures same { IfOk result (λ r. (r.0.cell ≡ seat.cell) × (r.0.origin ≡ seat.origin)) }
    ensures front { IfOk result (λ r. IsFront seat.seen r.0.seen) }
    ensures ended { IfOk result (λ r. r.1 ≡ true → (i : ℕ) → i < vec_len jobs
        → (o : _) × (seat.origin ≡ Some o) × HasEnded W.allowed o seat.seen (i + 1) r.0.seen) }
{
    let stop = AtomicBool::new(false);
    let stop = &stop;
    let done = thread::map_vec(
        rt,
        jobs,
        &|job: Job<W>| -> Done<W>
            requires { job.seat.cell ≡ cell.now }
            ensures { HasWorked W.allowed job.seat job.client result.seat result.ended }
        { do_job(rt, cell, job, gate, stop) },
    )?;
    Ok(gather(cell, seat, done))
}

fn do_job<W: Stepped, G: Gate, R: Wait>(
    rt: &R,
    cell: &TurnCell<W>,
    job: Job<W>,
    gate: &G,
    stop: &AtomicBool,
) -> Done<W>
    requires seat_of_cell { job.seat.cell ≡ cell.now }
    ensures worked { HasWorked W.allowed job.seat job.client result.seat result.ended }
{
    let Job { client, seat } = job;
    let (seat, ended) = work(rt, cell, seat, client, gate, stop);
    Done { seat, ended }
}

// One seat in place of all, and whether all clients have ended.
fn gather<W: Stepped>(
    cell: &TurnCell<W>,
    mut seat: TurnSeat<W>,
    done: Vec<Done<W>>,
) -> (TurnSeat<W>, bool)
    requires seat_of_cell { seat.cell ≡ cell.now }
    requires each_of_cell { All (λ d. d.seat.cell ≡ cell.now) done.items }
    ensures same { (result.0.cell ≡ seat.cell) × (result.0.origin ≡ seat.origin) }
    ensures front { IsFront seat.seen result.0.seen }
    ensures each { All (λ d. IsFront d.seat.seen result.0.seen × (result.1 ≡ true → d.ended ≡ true)) done.items }
{
    let mut all = true;
    for one in done {
        let Done { seat: other, ended } = one;
        seat = cell.join(seat, other);
        all = all && ended;
    }
    (seat, all)
}

// The value, once the seat finds no other with the turn.
fn close<W: Stepped, R: Wait>(rt: &R, mut cell: TurnCell<W>, mut seat: TurnSeat<W>) -> W
    requires seat_of_cell { seat.cell ≡ cell }
    ensures origin { seat.origin ≡ Some (W.origin result) }
    ensures front { IsFront seat.seen (W.schedule result) }
{
    let backoff = Backoff::new();
    for _ in rt.forever() {
        match cell.close(seat) {
            Ok(value) => return value,
            Err(
                TurnOut {
                    cell: same,
                    seat: next,
                },
            ) => {
                cell = same;
                seat = next;
                backoff.snooze();
            }
        }
    }
    unreachable!()
}
