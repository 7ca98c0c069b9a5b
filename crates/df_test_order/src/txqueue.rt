//! The places after inserts and removals, and that room is found where there is memory.

ghost use Rattle.std.specs.Prelude.{◌+◌, ◌<◌, ◌≤◌};

use df_model::NoMemory;
use df_txqueue::{Place, TxQueue};

fn place_of(number: u64) -> Place {
    Place {
        number,
        granted: number % 2 == 0,
        slot: 7,
    }
}

fn add(queue: &mut TxQueue, place: Place)
    requires { 0 < queue.old.spare }
    ensures { queue.old.spare ≤ queue.new.spare + 1 }
{
    if !queue.is_queued(place.number) {
        queue.insert(place);
    }
}

#[test]
fn room_is_found_and_used(rt: HostRuntime) -> Result<(), NoMemory> {
    let mut queue = TxQueue::new(rt.alloc());
    queue.reserve(2)?;
    add(&mut queue, place_of(8));
    add(&mut queue, place_of(4));
    assert_eq!(rt; queue.get(1), Some(place_of(8)));
    assert_eq!(rt; queue.get(2), None);
    Ok(())
}

#[test]
fn places_stand_by_number_and_leave_once(rt: HostRuntime) -> Result<(), NoMemory> {
    let mut queue = TxQueue::new(rt.alloc());
    assert_eq!(rt; (queue.head(), queue.tail()), (None, None));
    'inserts: for number in [5, 3, 9, 5] {
        queue.reserve(1)?;
        add(&mut queue, place_of(number));
    }
    assert_eq!(rt; (queue.head(), queue.tail()), (Some(place_of(3)), Some(9)));
    let table = [
        // the call that leaves, its place, how many stay, the oldest and the newest of them
        (5, Some(place_of(5)), 2, Some(place_of(3)), Some(9)),
        (5, None, 2, Some(place_of(3)), Some(9)),
        (9, Some(place_of(9)), 1, Some(place_of(3)), Some(3)),
        (3, Some(place_of(3)), 0, None, None),
    ];
    assert_eq!(rt; queue.get(1), Some(place_of(5)));
    'removals: for (number, place, stay, head, tail) in table {
        assert_eq!(rt; queue.remove(number), place, "of {number}");
        assert_eq!(rt; queue.len(), stay, "after {number}");
        assert_eq!(rt;
            (queue.head(), queue.tail()),
            (head, tail),
            "after {number}"
        );
    }
    Ok(())
}
