// The functions that C links: each calls the function of its name in the crate ospreyscreen, under the same clauses. To C a slice is a pointer
// and then a length, and a reply the struct of include/ospreyscreen.h, by value.
#![tactic(auto)]

ghost use Rattle.std.specs.Prelude.{◌≡◌};
ghost use Rattle.rules.specs.Calls.{lay, open_read, open_write, open_change, poll, put, commit, abandon, link, reach, diagnose, plan};
ghost use Rattle.rules.specs.Reply.{reply, after};
ghost use Rattle.votes.specs.Votes.{votes_reply, votes_output};
ghost use Rattle.spelling.specs.Writer.{form_reply, form_output};

use rules::Reply;

#[unsafe(no_mangle)]
pub extern "C" fn ospreyscreen_lay(
    table: &mut [u8],
    n: u64,
    m: u64,
    value: u64,
    config: &[u8],
) -> Reply
    ensures value { result ≡ reply table.old (lay n m value config.now) }
    ensures table_after { table.new ≡ after table.old (lay n m value config.now) }
{
    ospreyscreen::ospreyscreen_lay(table, n, m, value, config)
}

#[unsafe(no_mangle)]
pub extern "C" fn ospreyscreen_open_read(table: &mut [u8], i: u64) -> Reply
    ensures value { result ≡ reply table.old (open_read i) }
    ensures table_after { table.new ≡ after table.old (open_read i) }
{
    ospreyscreen::ospreyscreen_open_read(table, i)
}

#[unsafe(no_mangle)]
pub extern "C" fn ospreyscreen_open_write(table: &mut [u8], i: u64, value: u64) -> Reply
    ensures value { result ≡ reply table.old (open_write i value) }
    ensures table_after { table.new ≡ after table.old (open_write i value) }
{
    ospreyscreen::ospreyscreen_open_write(table, i, value)
}

#[unsafe(no_mangle)]
pub extern "C" fn ospreyscreen_open_change(table: &mut [u8], i: u64, target: &[u8]) -> Reply
    ensures value { result ≡ reply table.old (open_change i target.now) }
    ensures table_after { table.new ≡ after table.old (open_change i target.now) }
{
    ospreyscreen::ospreyscreen_open_change(table, i, target)
}

#[unsafe(no_mangle)]
pub extern "C" fn ospreyscreen_poll(table: &mut [u8], station: u64) -> Reply
    ensures value { result ≡ reply table.old (poll station) }
    ensures table_after { table.new ≡ after table.old (poll station) }
{
    ospreyscreen::ospreyscreen_poll(table, station)
}

#[unsafe(no_mangle)]
pub extern "C" fn ospreyscreen_put(table: &mut [u8], station: u64, sort: u64) -> Reply
    ensures value { result ≡ reply table.old (put station sort) }
    ensures table_after { table.new ≡ after table.old (put station sort) }
{
    ospreyscreen::ospreyscreen_put(table, station, sort)
}

#[unsafe(no_mangle)]
pub extern "C" fn ospreyscreen_commit(table: &mut [u8]) -> Reply
    ensures value { result ≡ reply table.old commit }
    ensures table_after { table.new ≡ after table.old commit }
{
    ospreyscreen::ospreyscreen_commit(table)
}

#[unsafe(no_mangle)]
pub extern "C" fn ospreyscreen_abandon(table: &mut [u8]) -> Reply
    ensures value { result ≡ reply table.old abandon }
    ensures table_after { table.new ≡ after table.old abandon }
{
    ospreyscreen::ospreyscreen_abandon(table)
}

#[unsafe(no_mangle)]
pub extern "C" fn ospreyscreen_link(table: &mut [u8], station: u64, state: u64) -> Reply
    ensures value { result ≡ reply table.old (link station state) }
    ensures table_after { table.new ≡ after table.old (link station state) }
{
    ospreyscreen::ospreyscreen_link(table, station, state)
}

#[unsafe(no_mangle)]
pub extern "C" fn ospreyscreen_reach(table: &[u8], i: u64) -> Reply
    ensures { result ≡ reply table.now (reach i) }
{
    ospreyscreen::ospreyscreen_reach(table, i)
}

#[unsafe(no_mangle)]
pub extern "C" fn ospreyscreen_diagnose(table: &[u8]) -> Reply
    ensures { result ≡ reply table.now diagnose }
{
    ospreyscreen::ospreyscreen_diagnose(table)
}

#[unsafe(no_mangle)]
pub extern "C" fn ospreyscreen_plan(table: &[u8], item: u64) -> Reply
    ensures { result ≡ reply table.now (plan item) }
{
    ospreyscreen::ospreyscreen_plan(table, item)
}

#[unsafe(no_mangle)]
pub extern "C" fn ospreyscreen_votes(votes: &[u8], read: u64, write: u64, out: &mut [u8]) -> Reply
    ensures value { result ≡ votes_reply votes.now read write out.old }
    ensures out_after { out.new ≡ votes_output votes.now read write out.old }
{
    ospreyscreen::ospreyscreen_votes(votes, read, write, out)
}

#[unsafe(no_mangle)]
pub extern "C" fn ospreyscreen_standard_form(n: u64, config: &[u8], out: &mut [u8]) -> Reply
    ensures value { result ≡ form_reply n config.now out.old }
    ensures out_after { out.new ≡ form_output n config.now out.old }
{
    ospreyscreen::ospreyscreen_standard_form(n, config, out)
}
