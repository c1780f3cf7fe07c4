// What is lent to the calls, and the bytes that are kept.
ghost use Rattle.std.specs.Prelude.{◌≡◌, ◌++◌, drop, replicate, take};
ghost use Rattle.std.specs.Int.{to_le_bytes, w64};

use crate::bytes::store;

// How many bytes the one space has.
pub const SPACE: usize = 30520;

// The bytes of a configuration and one zero byte more, and how many of them are lent.
#[derive(Clone, Copy)]
pub struct Config {
    bytes: [u8; 33],
    length: usize,
}

impl Config {
    // So many bytes of these read sets and write sets, at most four a side, 16 bits of a number each, the first least significant.
    pub fn of(read: u64, write: u64, length: usize) -> Config
        ensures bytes { result.bytes ≡ to_le_bytes w64 read ++ replicate 8 0 ++ to_le_bytes w64 write ++ replicate 9 0 }
        ensures length { result.length ≡ length }
    {
        let mut bytes = [0; 33];
        store(&mut bytes, 0, read);
        store(&mut bytes, 16, write);
        Config { bytes, length }
    }

    // Four sets more a side, at places 4 to 7.
    pub fn add(&mut self, read: u64, write: u64)
        ensures bytes { self.new.bytes ≡ take 8 self.old.bytes ++ to_le_bytes w64 read
            ++ take 8 (drop 16 self.old.bytes) ++ to_le_bytes w64 write ++ drop 32 self.old.bytes }
        ensures length { self.new.length ≡ self.old.length }
    {
        store(&mut self.bytes, 8, read);
        store(&mut self.bytes, 24, write);
    }

    // The bytes that are lent, if there are so many.
    pub fn lent(&self) -> Option<&[u8]> {
        self.bytes.get(..self.length)
    }
}

// Room for the bytes that are kept, and how many were kept last. Each copy stands at the start of the room, over the earlier ones.
#[derive(Drop)]
pub struct Kept {
    pub room: [u8; SPACE],
    pub length: usize,
}

impl Kept {
    fn copy(&mut self, table: &[u8]) {
        if let Some(start) = self.room.get_mut(..table.len()) {
            start.copy_from_slice(table);
        }
    }

    // Whether the table is what was kept last.
    pub fn is(&self, table: &[u8]) -> bool {
        self.room.get(..self.length) == Some(table)
    }
}

// The one space, how many of its bytes are lent as the table, the configuration, and what is kept.
#[derive(Drop)]
pub struct Lent {
    pub space: [u8; SPACE],
    pub length: usize,
    pub config: Config,
    pub kept: Kept,
}

impl Lent {
    // Keeps the table. While the space or the configuration has too few bytes, nothing is copied, and the number alone is kept.
    pub fn keep(&mut self) {
        if self.config.lent().is_some()
            && let Some(table) = self.space.get(..self.length)
        {
            self.kept.copy(table);
        }
        self.kept.length = self.length;
    }
}
