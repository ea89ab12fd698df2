//! The kinds of datagrams: the fourth byte.

pub const FRAME_KIND: u8 = 1;

pub const ASK_KIND: u8 = 2;

pub const HEAD_KIND: u8 = 3;

pub const WANT_KIND: u8 = 4;

pub const PIECE_KIND: u8 = 5;

pub const PULL_KIND: u8 = 6;
