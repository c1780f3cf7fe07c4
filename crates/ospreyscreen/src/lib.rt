// The calls, on any bytes and numbers; the crate ospreyscreen_c exports them to C. Each call on a table replies as `reply` says and leaves the
// table as `after` says; every one but lay asks first whether the table is sound. Votes and the writer of standard forms look at no table.
#![tactic(auto, using(crate::proofs::Soundness::unsound_reply, crate::proofs::Soundness::unsound_after))]

ghost use Rattle.std.specs.Prelude.{◌≡◌};
ghost use Rattle.rules.specs.Calls.{lay, open_read, open_write, open_change, poll, put, commit, abandon, link, reach, diagnose, plan};
ghost use Rattle.rules.specs.Outcome.{plain_reply};
ghost use Rattle.rules.specs.Reply.{reply, after};
ghost use Rattle.votes.specs.Votes.{votes_reply, votes_output};
ghost use Rattle.spelling.specs.Writer.{form_reply, form_output};

use calls::{commit_on, diagnose_on, link_on, poll_on, put_on, reach_on};
use form_writer::standard_form;
use forming::form_of;
use numbers::checks::check_lay;
use openings::{abandon_on, open_change_on, open_read_on, open_write_on};
use planning::plan_on;
use rounds::sound::Sound;
use rules::{Refusal, Reply};
use soundness::is_sound;
use vote_search::votes_to_configuration;
use writes::lay_bytes;

// Lay, which asks for no sound table.
fn lay(table: &mut [u8], n: u64, m: u64, value: u64, config: &[u8]) -> Result<(), Refusal>
    ensures value { plain_reply result ≡ reply table.old (lay n m value config.now) }
    ensures table_after { table.new ≡ after table.old (lay n m value config.now) }
{
    check_lay(table, n, m, config)?;
    let form = form_of(config);
    lay_bytes(table, n, m, value, &form);
    Ok(())
}

pub fn ospreyscreen_lay(table: &mut [u8], n: u64, m: u64, value: u64, config: &[u8]) -> Reply
    ensures value { result ≡ reply table.old (lay n m value config.now) }
    ensures table_after { table.new ≡ after table.old (lay n m value config.now) }
{
    lay(table, n, m, value, config).into()
}

pub fn ospreyscreen_open_read(table: &mut [u8], i: u64) -> Reply
    ensures value { result ≡ reply table.old (open_read i) }
    ensures table_after { table.new ≡ after table.old (open_read i) }
{
    if !is_sound(table) {
        return Refusal::Unsound.into();
    }
    open_read_on(table, i).into()
}

pub fn ospreyscreen_open_write(table: &mut [u8], i: u64, value: u64) -> Reply
    ensures value { result ≡ reply table.old (open_write i value) }
    ensures table_after { table.new ≡ after table.old (open_write i value) }
{
    if !is_sound(table) {
        return Refusal::Unsound.into();
    }
    open_write_on(table, i, value).into()
}

pub fn ospreyscreen_open_change(table: &mut [u8], i: u64, target: &[u8]) -> Reply
    ensures value { result ≡ reply table.old (open_change i target.now) }
    ensures table_after { table.new ≡ after table.old (open_change i target.now) }
{
    if !is_sound(table) {
        return Refusal::Unsound.into();
    }
    open_change_on(table, i, target).into()
}

pub fn ospreyscreen_poll(table: &mut [u8], station: u64) -> Reply
    ensures value { result ≡ reply table.old (poll station) }
    ensures table_after { table.new ≡ after table.old (poll station) }
{
    if !is_sound(table) {
        return Refusal::Unsound.into();
    }
    poll_on(table, station).into()
}

pub fn ospreyscreen_put(table: &mut [u8], station: u64, sort: u64) -> Reply
    ensures value { result ≡ reply table.old (put station sort) }
    ensures table_after { table.new ≡ after table.old (put station sort) }
{
    if !is_sound(table) {
        return Refusal::Unsound.into();
    }
    put_on(table, station, sort).into()
}

pub fn ospreyscreen_commit(table: &mut [u8]) -> Reply
    ensures value { result ≡ reply table.old commit }
    ensures table_after { table.new ≡ after table.old commit }
{
    if !is_sound(table) {
        return Refusal::Unsound.into();
    }
    commit_on(table).into()
}

pub fn ospreyscreen_abandon(table: &mut [u8]) -> Reply
    ensures value { result ≡ reply table.old abandon }
    ensures table_after { table.new ≡ after table.old abandon }
{
    if !is_sound(table) {
        return Refusal::Unsound.into();
    }
    abandon_on(table).into()
}

pub fn ospreyscreen_link(table: &mut [u8], station: u64, state: u64) -> Reply
    ensures value { result ≡ reply table.old (link station state) }
    ensures table_after { table.new ≡ after table.old (link station state) }
{
    if !is_sound(table) {
        return Refusal::Unsound.into();
    }
    link_on(table, station, state).into()
}

pub fn ospreyscreen_reach(table: &[u8], i: u64) -> Reply
    ensures { result ≡ reply table.now (reach i) }
{
    if !is_sound(table) {
        return Refusal::Unsound.into();
    }
    reach_on(Sound { bytes: table }, i).into()
}

pub fn ospreyscreen_diagnose(table: &[u8]) -> Reply
    ensures { result ≡ reply table.now diagnose }
{
    if !is_sound(table) {
        return Refusal::Unsound.into();
    }
    diagnose_on(Sound { bytes: table }).into()
}

pub fn ospreyscreen_plan(table: &[u8], item: u64) -> Reply
    ensures { result ≡ reply table.now (plan item) }
{
    if !is_sound(table) {
        return Refusal::Unsound.into();
    }
    plan_on(Sound { bytes: table }, item).into()
}

pub fn ospreyscreen_votes(votes: &[u8], read: u64, write: u64, out: &mut [u8]) -> Reply
    ensures value { result ≡ votes_reply votes.now read write out.old }
    ensures out_after { out.new ≡ votes_output votes.now read write out.old }
{
    votes_to_configuration(votes, read, write, out).into()
}

pub fn ospreyscreen_standard_form(n: u64, config: &[u8], out: &mut [u8]) -> Reply
    ensures value { result ≡ form_reply n config.now out.old }
    ensures out_after { out.new ≡ form_output n config.now out.old }
{
    standard_form(n, config, out).into()
}
