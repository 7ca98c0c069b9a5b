//! Threads that pass items, in schedules that no clause names.
ghost use Rattle.std.specs.Prelude.{◌≡◌, Some, IfOk};
ghost use Rattle.df_shardqueue.specs.Passes.{IsOf, mark_of};

use df_model::NoMemory;
use df_shardqueue::{Lane, Marked, QueuePass, ShardQueue, queue_like};
use std::alloc::Global;
use std::sync::Wait;
use std::thread;
use std::thread::Threads;

// What each of two senders sends, and each of two receivers takes.
const EACH: usize = 1000;

#[derive(Drop)]
struct Parcel {
    house: u32,
    serial: usize,
}

impl Marked for Parcel {
    type Mark = u32;

    ghost mark = { λ p. p.house };
}

// Sends the serials from the first on, or takes as many as it has slots.
#[derive(Drop)]
struct Seat<'a> {
    lane: Lane<'a, Parcel>,
    house: u32,
    sends_from: Option<usize>,
    got: Vec<usize>,
    ghost fits: { lane ≡ Some house },
}

fn send_all<R: Wait>(rt: &R, lane: &mut Lane<'_, Parcel>, house: u32, first: usize)
    requires { lane.old ≡ Some house }
    ensures { lane.new ≡ lane.old }
{
    'numbers: for number in 0..EACH {
        let serial = first.wrapping_add(number);
        lane.give(rt, Parcel { house, serial });
    }
}

fn take_all<R: Wait>(rt: &R, lane: &mut Lane<'_, Parcel>, got: &mut [usize])
    ensures { lane.new ≡ lane.old }
{
    'slots: for slot in got.iter_mut() {
        *slot = lane.take(rt).serial;
    }
}

fn work<R: Wait>(rt: &R, seat: &mut Seat<'_>) {
    match seat.sends_from {
        Some(first) => send_all(rt, &mut seat.lane, seat.house, first),
        None => take_all(rt, &mut seat.lane, seat.got.as_mut_slice()),
    }
}

fn made<'a>(
    alloc: Global,
    lane: &mut Lane<'a, Parcel>,
    house: u32,
    sends_from: Option<usize>,
) -> Result<Seat<'a>, NoMemory>
    requires { lane.old ≡ Some house }
    ensures { lane.new ≡ lane.old }
{
    let slots = if sends_from.is_none() { EACH } else { 0 };
    let got = Vec::from_elem(alloc, 0, slots)?;
    let lane = lane.twin();
    Ok(Seat {
        lane,
        house,
        sends_from,
        got,
    })
}

fn passed<R: Threads + Wait + Sync>(rt: &R, alloc: Global) -> Result<Vec<Vec<usize>>, NoMemory> {
    let house = 7;
    let (queue, pass) = queue_like(alloc, 2 * EACH, &Parcel { house, serial: 0 })?;
    let mut lane = Lane::new(&queue, pass);
    let mut seats = Vec::new(alloc);
    seats.push(made(alloc, &mut lane, house, Some(0))?)?;
    seats.push(made(alloc, &mut lane, house, None)?)?;
    seats.push(made(alloc, &mut lane, house, Some(EACH))?)?;
    seats.push(made(alloc, &mut lane, house, None)?)?;
    thread::for_each_mut(rt, seats.as_mut_slice(), 4, &|_, seat| work(rt, seat));
    let mut all = Vec::new(alloc);
    'seats: for seat in seats {
        all.push(seat.got)?;
    }
    Ok(all)
}

// Whether the serials of each sender rise.
fn is_in_order(got: &[usize]) -> bool {
    let mut next = [0, EACH];
    'items: for at in 0..got.len() {
        let serial = got[at];
        let sender = if serial < EACH { 0 } else { 1 };
        if serial < next[sender] {
            return false;
        }
        next[sender] = serial.wrapping_add(1);
    }
    true
}

#[test]
fn each_senders_items_come_in_order_and_none_is_missing(rt: HostRuntime) -> Result<(), NoMemory> {
    let mut all = Vec::new(rt.alloc());
    'takers: for got in passed(&rt, rt.alloc())? {
        assert!(rt; is_in_order(got.as_slice()), "in order");
        all.extend_from_slice(got.as_slice())?;
    }
    all.sort()?;
    let missing = (0..2 * EACH).position(|place| all.get(place) != Some(&place));
    assert_eq!(rt; (all.len(), missing), (2 * EACH, None));
    Ok(())
}

#[derive(Drop)]
struct Home {
    index: u32,
    visits: usize,
}

impl Marked for Home {
    type Mark = u32;

    ghost mark = { λ h. h.index };
}

// A queue of capacity 1 with a home in it.
fn opened<R: Wait>(
    rt: &R,
    alloc: Global,
    index: u32,
) -> Result<(ShardQueue<Home>, QueuePass<Home>), NoMemory>
    ensures { IfOk result (λ r. IsOf r.0 r.1 × (mark_of r.1 ≡ Some index)) }
{
    let home = Home { index, visits: 0 };
    let (queue, mut pass) = queue_like(alloc, 1, &home)?;
    let _ = queue.push(rt, &mut pass, home);
    Ok((queue, pass))
}

fn visit<R: Wait>(rt: &R, lane: &mut Lane<'_, Home>) {
    'visits: for _ in 0..EACH {
        let mut home = lane.take(rt);
        home.visits = home.visits.wrapping_add(1);
        lane.give(rt, home);
    }
}

fn visited<R: Threads + Wait + Sync>(
    rt: &R,
    alloc: Global,
    workers: usize,
) -> Result<(Home, Home), NoMemory> {
    let (north, north_pass) = opened(rt, alloc, 1)?;
    let (south, south_pass) = opened(rt, alloc, 2)?;
    let mut lanes = (Lane::new(&north, north_pass), Lane::new(&south, south_pass));
    let mut seats = Vec::new(alloc);
    'seats: for _ in 0..workers {
        seats.push((lanes.0.twin(), lanes.1.twin()))?;
    }
    thread::for_each_mut(
        rt,
        seats.as_mut_slice(),
        8,
        &|_, seat| {
            visit(rt, &mut seat.0);
            visit(rt, &mut seat.1);
        },
    );
    Ok((lanes.0.take(rt), lanes.1.take(rt)))
}

#[test]
fn workers_share_homes_and_all_come_back(rt: HostRuntime) -> Result<(), NoMemory> {
    'counts: for workers in [1, 4] {
        let (north, south) = visited(&rt, rt.alloc(), workers)?;
        assert_eq!(rt; (north.index, south.index), (1, 2));
        assert_eq!(rt;
            (north.visits, south.visits),
            (workers * EACH, workers * EACH)
        );
    }
    Ok(())
}

#[test]
fn a_full_queue_gives_the_item_back(rt: HostRuntime) -> Result<(), NoMemory> {
    let (queue, mut first) = opened(&rt, rt.alloc(), 3)?;
    let mut second = queue.pass(&mut first);
    assert_eq!(rt; queue.capacity(), 1);
    let back = queue.push(
        &rt,
        &mut second,
        Home {
            index: 3,
            visits: 9,
        },
    );
    assert_eq!(rt; back.err().map(|home| home.visits), Some(9));
    queue.join(&mut first, second);
    assert_eq!(rt; queue.pop(&rt, &mut first).map(|home| home.index), Some(3));
    assert!(rt; queue.pop(&rt, &mut first).is_none(), "empty");
    Ok(())
}
