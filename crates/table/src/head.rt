// The head of the table: where its fields stand, what each of them has, and what the calls write there.
ghost use Rattle.std.specs.Prelude.{◌≡◌, ◌≤◌, length, is_some, unwrap_or};
ghost use Rattle.basics.specs.Bytes.{number};
ghost use Rattle.layout.specs.Layout.{head_size, kind_at, listed, lay_length};
ghost use Rattle.layout.specs.Fields.{kind_byte, stations, items, off_set, round_of};
ghost use Rattle.layout.specs.View.{view, on_bus};
ghost use Rattle.layout.specs.Updates.{set_off, set_polled, set_puts, set_round, closed};
ghost use Rattle.table.specs.Kinds.{opened_kind, as_kind};

use crate::number::{byte_at, put_config_bytes, put_pair, put_u16, put_u64, u16_at, u64_at};
use layout::{
    CONFIG_PUTS_AT, COPIES_AT, COPY_SIZE, DATA_PUTS_AT, HEAD_SIZE, ITEM_AT, ITEMS_AT, KIND_AT,
    Kind, OFF_AT, POLLED_AT, SPARE_AT, STATIONS_AT, TARGET_AT, VALUE_AT,
};
use quorum::CONFIG_SIZE;

// The length that a lay needs; none for n or m out of range.
#[tactic(auto, unfolding(layout::specs::Layout::lay_length))]
pub fn lay_length(n: u64, m: u64) -> Option<usize>
    ensures value { unwrap_or result 0 ≡ lay_length n m }
    ensures listed { is_some result ≡ listed n m }
{
    if n < 1 || 16 < n || m < 1 || 32 < m {
        return None;
    }
    Some(COPIES_AT + COPY_SIZE * (n as usize * m as usize))
}

// How many stations there are.
pub fn stations(t: &[u8]) -> usize
    requires { head_size ≤ length t.now }
    ensures { result ≡ stations t.now }
{
    byte_at(t, STATIONS_AT)
}

// How many items there are.
pub fn items(t: &[u8]) -> usize
    requires { head_size ≤ length t.now }
    ensures { result ≡ items t.now }
{
    byte_at(t, ITEMS_AT)
}

// The stations off the bus.
pub fn off_set(t: &[u8]) -> u16
    requires { head_size ≤ length t.now }
    ensures { result ≡ off_set t.now }
{
    u16_at(t, OFF_AT)
}

// The stations on the bus.
pub fn on_bus(t: &[u8]) -> u16
    requires { head_size ≤ length t.now }
    ensures { result ≡ on_bus (view t.now) }
{
    sets::difference(sets::all_stations(stations(t)), off_set(t))
}

// The byte of the round's kind.
pub fn kind_byte(t: &[u8]) -> u8
    requires { head_size ≤ length t.now }
    ensures { result ≡ number t.now kind_at 1 }
{
    t[KIND_AT]
}

// The round's kind; nothing, where there is no round. A byte above 3 is read as a change: no sound table has one.
pub fn kind(t: &[u8]) -> Option<Kind>
    requires { head_size ≤ length t.now }
    ensures { as_kind result ≡ (round_of t.now).kind }
{
    match kind_byte(t) {
        0 => None,
        1 => Some(Kind::Read),
        2 => Some(Kind::Write),
        _ => Some(Kind::Change),
    }
}

// The round's item.
pub fn item(t: &[u8]) -> usize
    requires { head_size ≤ length t.now }
    ensures { result ≡ (round_of t.now).item }
{
    byte_at(t, ITEM_AT)
}

// The stations that the round has polled.
pub fn polled(t: &[u8]) -> u16
    requires { head_size ≤ length t.now }
    ensures { result ≡ (round_of t.now).polled }
{
    u16_at(t, POLLED_AT)
}

// The stations with a data put.
pub fn data_puts(t: &[u8]) -> u16
    requires { head_size ≤ length t.now }
    ensures { result ≡ (round_of t.now).data_puts }
{
    u16_at(t, DATA_PUTS_AT)
}

// The stations with a configuration put.
pub fn config_puts(t: &[u8]) -> u16
    requires { head_size ≤ length t.now }
    ensures { result ≡ (round_of t.now).config_puts }
{
    u16_at(t, CONFIG_PUTS_AT)
}

// The value that the round writes.
pub fn value(t: &[u8]) -> u64
    requires { head_size ≤ length t.now }
    ensures { result ≡ (round_of t.now).value }
{
    u64_at(t, VALUE_AT)
}

// The configuration that the round changes to.
pub fn target(t: &[u8]) -> &[u8]
    requires { head_size ≤ length t.now }
    ensures { result.now ≡ (round_of t.now).target }
{
    &t[TARGET_AT..HEAD_SIZE]
}

pub fn set_off(t: &mut [u8], off: u16)
    requires { head_size ≤ length t.old }
    ensures { t.new ≡ set_off t.old off }
{
    put_u16(t, OFF_AT, off)
}

pub fn set_polled(t: &mut [u8], polled: u16)
    requires { head_size ≤ length t.old }
    ensures { t.new ≡ set_polled t.old polled }
{
    put_u16(t, POLLED_AT, polled)
}

pub fn set_puts(t: &mut [u8], data_puts: u16, config_puts: u16)
    requires { head_size ≤ length t.old }
    ensures { t.new ≡ set_puts t.old data_puts config_puts }
{
    put_u16(t, DATA_PUTS_AT, data_puts);
    put_u16(t, CONFIG_PUTS_AT, config_puts)
}

// Writes the bytes of a round with nothing polled and no puts, whatever byte its kind is.
pub fn set_round(t: &mut [u8], kind: u8, item: u8, value: u64, target: [u8; CONFIG_SIZE])
    requires { head_size ≤ length t.old }
    ensures { t.new ≡ set_round t.old kind item value target }
{
    put_pair(t, KIND_AT, kind, item, SPARE_AT - POLLED_AT);
    put_u64(t, VALUE_AT, value);
    put_config_bytes(t, TARGET_AT, target)
}

// Opens a round of a kind on an item, with nothing polled and no puts.
pub fn open_round(t: &mut [u8], kind: Kind, item: u8, value: u64, target: [u8; CONFIG_SIZE])
    requires { head_size ≤ length t.old }
    ensures { t.new ≡ set_round t.old (kind_byte (opened_kind kind)) item value target }
{
    set_round(t, kind as u8, item, value, target)
}

// Closes the round.
pub fn close_round(t: &mut [u8])
    requires { head_size ≤ length t.old }
    ensures { t.new ≡ closed t.old }
{
    set_round(t, 0, 0, 0, [0u8; CONFIG_SIZE])
}
