// One copy: its two counters, where it stands, its fields, and the writer that is lent the table from the copy on.
ghost use Rattle.std.specs.Prelude.{◌≡◌, ◌+◌, ◌≤◌, ◌<◌, length, eqb};
ghost use Rattle.layout.specs.Layout.{copy_size, address};
ghost use Rattle.layout.specs.Fields.{copy_from, last_count};
ghost use Rattle.layout.specs.Updates.{put_data, put_config};

use crate::number::{put_config_bytes, put_u64, u64_at};
use layout::{
    COPIES_AT, COPY_CONFIG_AT, COPY_GENERATION_AT, COPY_SIZE, COPY_VALUE_AT, COPY_VERSION_AT,
};
use quorum::CONFIG_SIZE;

// A counter of a copy. Those of the value and those of the configuration are two types, so that neither is compared with the other.
#[derive(Clone, Copy, PartialEq, Eq, PartialOrd, Ord)]
pub struct Counter<const OF_CONFIGURATION: bool>(pub u64);

// How often the value was written.
pub type Version = Counter<false>;

// How often the configuration was changed.
pub type Generation = Counter<true>;

impl<const OF_CONFIGURATION: bool> Counter<OF_CONFIGURATION> {
    // Whether there is none after it.
    pub fn is_last(self) -> bool
        ensures { result ≡ eqb self.entry.0 last_count }
    {
        self.0 == u64::MAX
    }

    pub fn next(self) -> Self
        requires { self.0 < last_count }
        ensures { result.0 ≡ self.entry.0 + 1 }
    {
        Counter(self.0 + 1)
    }
}

// Where the copy of an item at a station starts.
pub fn address(n: usize, item: usize, station: usize) -> usize
    requires { (n ≤ 16) × (item < 32) × (station < 16) }
    ensures { result ≡ address n item station }
{
    COPIES_AT + COPY_SIZE * (item * n + station)
}

// The fields of the copy that starts at a place.
pub fn version_at(t: &[u8], at: usize) -> Version
    requires { at + copy_size ≤ length t.now }
    ensures { result.0 ≡ (copy_from t.now at).version }
{
    Counter(u64_at(t, at + COPY_VERSION_AT))
}

pub fn value_at(t: &[u8], at: usize) -> u64
    requires { at + copy_size ≤ length t.now }
    ensures { result ≡ (copy_from t.now at).value }
{
    u64_at(t, at + COPY_VALUE_AT)
}

pub fn generation_at(t: &[u8], at: usize) -> Generation
    requires { at + copy_size ≤ length t.now }
    ensures { result.0 ≡ (copy_from t.now at).generation }
{
    Counter(u64_at(t, at + COPY_GENERATION_AT))
}

pub fn config_at(t: &[u8], at: usize) -> &[u8]
    requires { at + copy_size ≤ length t.now }
    ensures { result.now ≡ (copy_from t.now at).config }
{
    let start = at + COPY_CONFIG_AT;
    &t[start..start + CONFIG_SIZE]
}

// The writer: it is lent a part of the table that starts at the copy, and writes from the copy's first byte on.
fn write_data(copy: &mut [u8], version: Version, value: u64)
    requires { copy_size ≤ length copy.old }
    ensures { copy.new ≡ put_data copy.old 0 version.0 value }
{
    put_u64(copy, COPY_VERSION_AT, version.0);
    put_u64(copy, COPY_VALUE_AT, value)
}

fn write_config(copy: &mut [u8], generation: Generation, config: [u8; CONFIG_SIZE])
    requires { copy_size ≤ length copy.old }
    ensures { copy.new ≡ put_config copy.old 0 generation.0 config }
{
    put_u64(copy, COPY_GENERATION_AT, generation.0);
    put_config_bytes(copy, COPY_CONFIG_AT, config)
}

// Puts version and value into the copy that starts at a place.
pub fn put_data(t: &mut [u8], at: usize, version: Version, value: u64)
    requires { at + copy_size ≤ length t.old }
    ensures { t.new ≡ put_data t.old at version.0 value }
{
    write_data(&mut t[at..], version, value)
}

// Puts generation and configuration into the copy that starts at a place.
pub fn put_config(t: &mut [u8], at: usize, generation: Generation, config: [u8; CONFIG_SIZE])
    requires { at + copy_size ≤ length t.old }
    ensures { t.new ≡ put_config t.old at generation.0 config }
{
    write_config(&mut t[at..], generation, config)
}
