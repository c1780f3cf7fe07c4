// What commit and lay write.
#![tactic(auto)]

ghost use Rattle.std.specs.Prelude.{◌≡◌, cond, ◌+◌, ◌*◌, ◌≤◌, length};
ghost use Rattle.basics.specs.Bytes.{part, over};
ghost use Rattle.quorum.specs.Configurations.{config_size};
ghost use Rattle.layout.specs.Layout.{head_size, copies_at, copy_size, table_length};
ghost use Rattle.layout.specs.Fields.{new_copy};
ghost use Rattle.table.specs.ItemCopies.{InTable};
ghost use Rattle.layout.specs.Updates.{put_data, put_config, copy_bytes, repeated, laid_head, laid, put_copies, closed};
ghost use Rattle.rounds.specs.Round.{as_round};

use layout::{COPIES_AT, COPY_SIZE, HEAD_SIZE, OFF_AT, STATIONS_AT};
use quorum::CONFIG_SIZE;
use rounds::round::Round;
use sets::Stations;
use table::copy::{Counter, Generation, Version, address, put_config, put_data};
use table::head::{close_round, set_off};
use table::number::{config_bytes_at, put_pair};

// Version and value into the copy at a place, if its station has a data put.
fn put_data_if(t: &mut [u8], at: usize, put: bool, version: Version, value: u64)
    requires { at + copy_size ≤ length t.old }
    ensures { t.new ≡ cond put (put_data t.old at version.0 value) t.old }
{
    if put {
        put_data(t, at, version, value)
    }
}

// Generation and configuration into the copy at a place, if its station has a configuration put.
fn put_config_if(
    t: &mut [u8],
    at: usize,
    put: bool,
    generation: Generation,
    config: [u8; CONFIG_SIZE],
)
    requires { at + copy_size ≤ length t.old }
    ensures { t.new ≡ cond put (put_config t.old at generation.0 config) t.old }
{
    if put {
        put_config(t, at, generation, config)
    }
}

// Every put of the round takes effect, at the stations that have one, the lowest first.
fn put_each(
    t: &mut [u8],
    n: usize,
    round: Round,
    value: u64,
    version: Version,
    generation: Generation,
)
    requires { InTable t.old n round.item }
    ensures { t.new ≡ put_copies t.old n (as_round round) (new_copy version.0 value generation.0 round.target) n }
{
    let i = round.item;
    let target = round.target;
    for s in Stations(sets::united(round.data_puts, round.config_puts)) {
        if n <= s {
            return;
        }
        let at = address(n, i, s);
        put_data_if(t, at, sets::is_member(round.data_puts, s), version, value);
        put_config_if(
            t,
            at,
            sets::is_member(round.config_puts, s),
            generation,
            target,
        );
    }
}

// The same, and then the round closes.
#[tactic(auto, using(crate::proofs::Writes::head_fits))]
pub fn finish(
    t: &mut [u8],
    n: usize,
    round: Round,
    value: u64,
    version: Version,
    generation: Generation,
)
    requires { InTable t.old n round.item }
    ensures { t.new ≡ closed (put_copies t.old n (as_round round) (new_copy version.0 value generation.0 round.target) n) }
{
    put_each(t, n, round, value, version, generation);
    close_round(t)
}

// The most bytes that are copied at once: half of the copies of the largest table.
const BLOCK_SIZE: usize = 256 * COPY_SIZE;

// Writes the first bytes behind the head once more, as many as the count says. The compiler leaves the block out and makes
// this one move of memory.
fn copy_again(t: &mut [u8], to: usize, count: usize)
    requires { (count ≤ 256 * copy_size) × (copies_at + count ≤ length t.old) × (to + count ≤ length t.old) }
    ensures { t.new ≡ over t.old to (part t.old copies_at count) }
{
    let mut block = [0u8; BLOCK_SIZE];
    block[..count].copy_from_slice(&t[COPIES_AT..COPIES_AT + count]);
    t[to..to + count].copy_from_slice(&block[..count])
}

// Writes the first copy.
fn lay_first(t: &mut [u8], value: u64, config: &[u8])
    requires { (copies_at + copy_size ≤ length t.old) × (length config.now ≡ config_size) }
    ensures { t.new ≡ over t.old copies_at (copy_bytes 0 value 0 config.now) }
{
    put_data(t, COPIES_AT, Counter(0), value);
    put_config(t, COPIES_AT, Counter(0), config_bytes_at(config, 0))
}

// Makes all copies like the first. Each turn writes the copies that are there once more behind them, and so doubles them.
fn lay_rest(t: &mut [u8], copies: usize)
    requires { (1 ≤ copies) × (copies ≤ 512) × (copies_at + copy_size * copies ≤ length t.old) }
    ensures { t.new ≡ over t.old copies_at (repeated copies (part t.old copies_at copy_size)) }
{
    let mut k: usize = 1;
    while k < copies {
        let more = k.min(copies - k);
        copy_again(t, COPIES_AT + COPY_SIZE * k, COPY_SIZE * more);
        k += more;
    }
}

// Writes the head: no round, and every station off the bus.
#[tactic(auto, using(crate::proofs::Writes::head_off))]
fn lay_head(t: &mut [u8], n: u64, m: u64)
    requires { (n ≤ 16) × (m ≤ 32) × (head_size ≤ length t.old) }
    ensures { t.new ≡ over t.old 0 (laid_head n m) }
{
    put_pair(t, STATIONS_AT, n as u8, m as u8, HEAD_SIZE - OFF_AT);
    set_off(t, sets::all_stations(n as usize))
}

// Writes every byte of a table: its head, and its copies, all alike.
pub fn lay_bytes(t: &mut [u8], n: u64, m: u64, value: u64, config: &[u8])
    requires { (1 ≤ n) × (n ≤ 16) × (1 ≤ m) × (m ≤ 32) × (length t.old ≡ table_length n m) × (length config.now ≡ config_size) }
    ensures { t.new ≡ laid n m value config.now }
{
    lay_head(t, n, m);
    lay_first(t, value, config);
    lay_rest(t, n as usize * m as usize)
}
