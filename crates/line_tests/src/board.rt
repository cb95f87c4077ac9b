use crate::shared::{gives, gives_none, loses_other_lengths, put, refuses};
use line::board::Board;

#[test]
fn goes_round_the_senders(rt: HostRuntime) {
    let mut board = Board::new();
    put(&mut board, 16, 3);
    put(&mut board, 1, 1);
    put(&mut board, 3, 2);
    for _ in 0..2 {
        gives(&rt, &mut board, 1, 1);
        gives(&rt, &mut board, 3, 2);
        gives(&rt, &mut board, 16, 3);
    }
}

#[test]
fn goes_on_after_the_last_one_given(rt: HostRuntime) {
    let mut board = Board::new();
    put(&mut board, 4, 1);
    gives(&rt, &mut board, 4, 1);
    put(&mut board, 2, 2);
    put(&mut board, 5, 3);
    put(&mut board, 4, 4);
    gives(&rt, &mut board, 5, 3);
    gives(&rt, &mut board, 2, 2);
    gives(&rt, &mut board, 4, 4);
}

#[test]
fn keeps_the_latest(rt: HostRuntime) {
    let mut board = Board::new();
    put(&mut board, 7, 1);
    put(&mut board, 7, 2);
    gives(&rt, &mut board, 7, 2);
    gives(&rt, &mut board, 7, 2);
}

#[test]
fn loses_other_senders(rt: HostRuntime) {
    let mut board = Board::new();
    put(&mut board, 0, 1);
    put(&mut board, 17, 2);
    gives_none(&rt, &mut board);
}

#[test]
fn refuses_and_keeps(rt: HostRuntime) {
    let mut board = Board::new();
    loses_other_lengths(&rt, &mut board);
    put(&mut board, 3, 5);
    refuses(&rt, &mut board);
    gives(&rt, &mut board, 3, 5);
}
