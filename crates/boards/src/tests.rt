//! Both boards at their edges.

use crate::board::{Board, EMPTY, STAMP_LIMIT};
use crate::bytes::ByteBoard;
use crate::table::{TABLE_WORDS, Table};
use std::process::Abort;

/// A byte that nobody writes below.
const OLD: u8 = 7;

/// Each call at the last word of a board, which holds `first`, and at `end`, the first place beyond it.
fn check_edge<B: Board>(rt: &impl Abort, board: &mut B, last: usize, end: usize, first: u64) {
    assert_eq!(rt; board.len(), end);
    assert_eq!(rt; board.load(last), first, "load, last word");
    assert_eq!(rt; board.load(end), EMPTY, "load, beyond");
    board.store(end, 1);
    board.store(last, 40);
    assert!(rt; !board.swap(end, EMPTY, 1), "swap, beyond");
    assert!(rt; !board.swap(last, 41, 1), "swap, another word");
    assert_eq!(rt; board.load(last), 40);
    assert!(rt; board.swap(last, 40, 50), "swap, last word");
    assert_eq!(rt; board.take(last), 50, "take, last word");
    assert_eq!(rt; board.take(end), STAMP_LIMIT, "take, beyond");
    assert_eq!(rt; board.load(last), 51);
}

/// A take at the last value below the limit, at the limit, and above it.
fn check_limit<B: Board>(rt: &impl Abort, board: &mut B, k: usize) {
    board.store(k, STAMP_LIMIT - 1);
    assert_eq!(rt; board.take(k), STAMP_LIMIT - 1);
    assert_eq!(rt; board.take(k), STAMP_LIMIT);
    assert_eq!(rt; board.load(k), STAMP_LIMIT);
    board.store(k, EMPTY);
    assert_eq!(rt; board.take(k), STAMP_LIMIT);
    assert_eq!(rt; board.load(k), EMPTY);
}

#[test]
fn table_edges(rt: HostRuntime) {
    let mut table = Table::new();
    check_edge(&rt, &mut table, TABLE_WORDS - 1, TABLE_WORDS, 0);
    assert_eq!(rt; table.load(TABLE_WORDS - 2), 0, "neighbour");
    assert_eq!(rt; table.load(0), 0);
}

#[test]
fn table_limit(rt: HostRuntime) {
    let mut table = Table::new();
    check_limit(&rt, &mut table, 7);
    assert_eq!(rt; table.load(6), 0);
    assert_eq!(rt; table.load(8), 0);
}

#[test]
fn bytes_edges(rt: HostRuntime) {
    let mut bytes = [OLD; 20];
    let mut board = ByteBoard::over(&mut bytes);
    check_edge(&rt, &mut board, 1, 2, 0x0707_0707_0707_0707);
    assert!(rt; bytes[0..8] == [OLD; 8], "neighbour");
    assert!(rt; bytes[8] == 51);
    assert!(rt; bytes[16..20] == [OLD; 4], "rest");
}

#[test]
fn bytes_limit(rt: HostRuntime) {
    let mut bytes = [OLD; 20];
    let mut board = ByteBoard::over(&mut bytes);
    check_limit(&rt, &mut board, 0);
    assert!(rt; bytes[8..20] == [OLD; 12], "neighbour and rest");
}

#[test]
fn bytes_little_endian(rt: HostRuntime) {
    let mut bytes = [OLD; 20];
    let mut board = ByteBoard::over(&mut bytes);
    board.store(1, 0xf8f7_f6f5_f4f3_f2f1);
    assert_eq!(rt; board.load(1), 0xf8f7_f6f5_f4f3_f2f1);
    assert!(rt; bytes[8..12] == [0xf1, 0xf2, 0xf3, 0xf4], "low half");
    assert!(rt; bytes[12..16] == [0xf5, 0xf6, 0xf7, 0xf8], "high half");
}

#[test]
fn bytes_without_a_word(rt: HostRuntime) {
    let mut bytes = [OLD; 7];
    let mut board = ByteBoard::over(&mut bytes);
    assert_eq!(rt; board.len(), 0);
    assert_eq!(rt; board.load(0), EMPTY);
    board.store(0, 9);
    assert!(rt; !board.swap(0, EMPTY, 9));
    assert_eq!(rt; board.take(0), STAMP_LIMIT);
    assert!(rt; bytes == [OLD; 7], "rest");
}
