// The bytes of the table: definitions and laws. What the code has of them are the sizes, the places, the kinds of a round and
// the sorts of a put, by name.
#![tactic(auto)]

// The head: its size, and where its fields stand.
pub const HEAD_SIZE: usize = 56;

pub const STATIONS_AT: usize = 0;

pub const ITEMS_AT: usize = 1;

pub const OFF_AT: usize = 2;

pub const KIND_AT: usize = 4;

pub const ITEM_AT: usize = 5;

pub const POLLED_AT: usize = 6;

pub const DATA_PUTS_AT: usize = 8;

pub const CONFIG_PUTS_AT: usize = 10;

pub const SPARE_AT: usize = 12;

pub const VALUE_AT: usize = 16;

pub const TARGET_AT: usize = 24;

// The copies: where they start, how long each is, and where its fields stand.
pub const COPIES_AT: usize = 56;

pub const COPY_SIZE: usize = 56;

pub const COPY_VERSION_AT: usize = 0;

pub const COPY_VALUE_AT: usize = 8;

pub const COPY_GENERATION_AT: usize = 16;

pub const COPY_CONFIG_AT: usize = 24;

// The length of the largest table.
pub const LARGEST: usize = 28728;

// The kinds of a round, with the numbers that its byte has; with no round the byte is 0.
#[derive(Clone, Copy, PartialEq, Eq)]
pub enum Kind {
    Read = 1,
    Write = 2,
    Change = 3,
}

// The sorts of a put, with the numbers that the calls are given.
#[derive(Clone, Copy, PartialEq, Eq)]
pub enum Sort {
    Data = 1,
    Configuration = 2,
}
