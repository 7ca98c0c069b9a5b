//! A run of two shards, to which calls come in another order than that of their numbers. Then one thread takes the
//! finished calls in the order of their numbers, and each has to get the same replies.

use crate::shard::{Answer, Shard};
use crate::store::{Replies, call_of, run};
use df_model::{Call, NoMemory};
use std::alloc::Global;
use std::collections::BTreeMap;
use std::process::Abort;

#[derive(Clone, Copy, Debug)]
enum Event {
    Draw(u64),
    Schedule,
    Quick,
    Hop,
    Cancel,
    Conclude,
}

/// What a caller knows of its call.
#[derive(Clone, Copy, Debug)]
struct State {
    number: u64,
    replies: Replies,
}

fn merged(old: Replies, new: Replies) -> Replies {
    [new[0].or(old[0]), new[1].or(old[1])]
}

fn happen(
    shard: &mut Shard,
    call: &Call,
    state: &mut State,
    event: Event,
) -> Result<Answer, NoMemory> {
    let answer = match event {
        Event::Draw(number) => {
            state.number = number;
            Answer::Drawn
        }
        Event::Schedule => shard.schedule(call, state.number)?,
        Event::Quick => shard.quick(call, state.number)?,
        Event::Hop => shard.hop(call, state.number)?,
        Event::Cancel | Event::Conclude => shard.leave(state.number),
    };
    if let Answer::Ran(replies) = answer {
        state.replies = merged(state.replies, replies);
    }
    Ok(answer)
}

/// The calls and their first numbers; by the hashes of their keys, a and c stand on shard 0, b and d on shard 1.
fn opened(alloc: Global) -> Result<(Vec<Call>, Vec<State>), NoMemory> {
    let named = [
        (1, "a", true, "b"),
        (2, "a", true, "b"),
        (3, "c", false, ""),
        (4, "c", true, ""),
        (7, "b", false, ""),
        (8, "d", true, ""),
    ];
    let mut calls = Vec::new(alloc);
    let mut states = Vec::new(alloc);
    'named: for (number, name, raises, second) in named {
        calls.push(call_of(alloc, name, raises, second)?)?;
        let replies = [None, None];
        states.push(State { number, replies })?;
    }
    Ok((calls, states))
}

/// A call, what happens to it, on which shard, what is answered.
type Row = (usize, Event, usize, Answer);

const RAISED: Answer = Answer::Ran([Some(1), None]);

/// Up to where two calls have drawn again.
fn first_rows() -> [Row; 9] {
    [
        (0, Event::Schedule, 1, Answer::Granted),
        (1, Event::Schedule, 0, Answer::Granted),
        // 1 would have to go in front of 2
        (0, Event::Schedule, 0, Answer::BeforeTail),
        (0, Event::Cancel, 1, Answer::Gone),
        (1, Event::Schedule, 1, Answer::Granted),
        // 4 runs in front of 2, so 3 comes too late
        (3, Event::Quick, 0, RAISED),
        (2, Event::Quick, 0, Answer::TooLate),
        (2, Event::Draw(5), 0, Answer::Drawn),
        (0, Event::Draw(6), 0, Answer::Drawn),
    ]
}

/// Up to where 2 has left.
fn middle_rows() -> [Row; 10] {
    [
        (0, Event::Schedule, 0, Answer::Waits),
        (0, Event::Schedule, 1, Answer::Waits),
        (2, Event::Quick, 0, RAISED),
        (4, Event::Quick, 1, Answer::Waits),
        (5, Event::Quick, 1, RAISED),
        (0, Event::Hop, 0, Answer::NotYet),
        (1, Event::Hop, 1, Answer::Ran([None, Some(1)])),
        (1, Event::Hop, 0, RAISED),
        (1, Event::Conclude, 0, Answer::Gone),
        (1, Event::Conclude, 1, Answer::Gone),
    ]
}

fn last_rows() -> [Row; 7] {
    [
        // 6 is the head now, and 7 still behind it
        (4, Event::Hop, 1, Answer::NotYet),
        (0, Event::Hop, 1, Answer::Ran([None, Some(2)])),
        (0, Event::Hop, 0, Answer::Ran([Some(2), None])),
        (0, Event::Conclude, 1, Answer::Gone),
        (0, Event::Conclude, 0, Answer::Gone),
        (4, Event::Hop, 1, Answer::Ran([Some(2), None])),
        (4, Event::Conclude, 1, Answer::Gone),
    ]
}

fn play(
    rt: &impl Abort,
    shards: &mut [Shard],
    calls: &[Call],
    states: &mut [State],
    rows: &[Row],
) -> Result<(), NoMemory> {
    'rows: for (i, event, at, answer) in rows {
        if let (Some(call), Some(state), Some(shard)) = (
            calls.get(*i),
            states.get_mut(*i),
            shards.get_mut(*at),
        ) {
            let got = happen(shard, call, state, *event)?;
            assert_eq!(rt; got, *answer, "{event:?} of {} on {at}", state.number);
        }
    }
    Ok(())
}

/// One thread takes the calls in the order of their numbers, and is answered the same.
fn play_in_order(
    rt: &impl Abort,
    alloc: Global,
    calls: &[Call],
    states: &[State],
) -> Result<(), NoMemory> {
    let mut plain = BTreeMap::new(alloc);
    'numbers: for number in 1..9 {
        let drawn = states.iter().position(|state| state.number == number);
        let i = drawn.unwrap_or(calls.len());
        if let (Some(call), Some(state)) = (calls.get(i), states.get(i)) {
            let replies = run(alloc, &mut plain, call, None)?;
            assert_eq!(rt; state.replies, replies, "of {number}");
        }
    }
    Ok(())
}

#[test]
fn replies_are_those_of_one_thread(rt: HostRuntime) -> Result<(), NoMemory> {
    let alloc = rt.alloc();
    let (calls, mut states) = opened(alloc)?;
    let mut shards = [Shard::new(alloc, 0), Shard::new(alloc, 1)];
    play(
        &rt,
        &mut shards,
        calls.as_slice(),
        states.as_mut_slice(),
        &first_rows(),
    )?;
    play(
        &rt,
        &mut shards,
        calls.as_slice(),
        states.as_mut_slice(),
        &middle_rows(),
    )?;
    play(
        &rt,
        &mut shards,
        calls.as_slice(),
        states.as_mut_slice(),
        &last_rows(),
    )?;
    play_in_order(&rt, alloc, calls.as_slice(), states.as_slice())
}
