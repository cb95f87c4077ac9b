use crate::shared::{gives, gives_none, loses_other_lengths, put, refuses};
use line::queue::Queue;

#[test]
fn goes_round_the_ring(rt: HostRuntime) {
    let mut queue = Queue::new();
    put(&mut queue, 1, 0);
    for mark in 0..20 {
        put(&mut queue, 1, mark + 1);
        gives(&rt, &mut queue, 1, mark);
    }
    gives(&rt, &mut queue, 1, 20);
    gives_none(&rt, &mut queue);
}

#[test]
fn loses_the_ninth(rt: HostRuntime) {
    let mut queue = Queue::new();
    for mark in 1..10 {
        put(&mut queue, 1, mark);
    }
    for mark in 1..9 {
        gives(&rt, &mut queue, 1, mark);
    }
    gives_none(&rt, &mut queue);
}

#[test]
fn uses_a_freed_place_again(rt: HostRuntime) {
    let mut queue = Queue::new();
    for mark in 1..9 {
        put(&mut queue, 1, mark);
    }
    gives(&rt, &mut queue, 1, 1);
    put(&mut queue, 1, 9);
    put(&mut queue, 1, 10);
    for mark in 2..10 {
        gives(&rt, &mut queue, 1, mark);
    }
    gives_none(&rt, &mut queue);
}

#[test]
fn refuses_and_keeps(rt: HostRuntime) {
    let mut queue = Queue::new();
    loses_other_lengths(&rt, &mut queue);
    put(&mut queue, 1, 5);
    refuses(&rt, &mut queue);
    gives(&rt, &mut queue, 1, 5);
}
