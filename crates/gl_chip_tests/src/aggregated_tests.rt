use crate::unplugged_target::read_with_room;
use gl_base::Errno;
use std::alloc::Global;
use std::sync::Wait;
use std::thread::Threads;

/// Whether all is read as it has to be in a history with room for all, and the history is a legal one, in this order.
fn reads_right<R: Threads + Wait + Sync>(rt: &R, alloc: Global) -> Result<[bool; 2], Errno> {
    match read_with_room(rt, alloc, 500) {
        Ok(ended) => Ok([ended.is_right(), ended.has_a_legal_history(alloc)]),
        Err(errno) => Err(errno),
    }
}

#[test]
fn an_aggregated_chip_has_the_values_of_its_target_until_another_actor_unplugs_that(
    rt: HostRuntime,
) {
    for _ in 0..200 {
        assert!(rt; reads_right(&rt, rt.alloc()) == Ok([true; 2]));
    }
}

/// Whether in a history with this room the first reading is this, and the history has so many entries and is a legal one.
fn reads_so<R: Threads + Wait + Sync>(
    rt: &R,
    alloc: Global,
    room: u32,
    first: Result<u64, Errno>,
    entries: usize,
) -> bool {
    match read_with_room(rt, alloc, room) {
        Ok(ended) => {
            ended.before[0] == first
                && ended.history.len() == entries
                && ended.has_a_legal_history(alloc)
        }
        Err(_) => false,
    }
}

#[test]
fn a_history_that_is_full_inside_a_call_on_an_aggregated_chip_makes_it_fail(rt: HostRuntime) {
    let cases = [
        // The request: it has no entry; its own command has none; it has all, and the values have none.
        (7, Err(Errno::Full), 7),
        (8, Err(Errno::Io), 9),
        (9, Err(Errno::Full), 11),
        (11, Err(Errno::Full), 11),
        // The values: their own command has no entry; it has one, behind which the others are owed.
        (12, Err(Errno::Io), 13),
        (13, Ok(2), 15),
    ];
    for (room, first, entries) in cases {
        assert!(rt;
            reads_so(&rt, rt.alloc(), room, first, entries),
            "room {room}"
        );
    }
}
