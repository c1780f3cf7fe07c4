// The twelve calls with their numbers.
ghost use Rattle.std.specs.Prelude.{◌≡◌};
ghost use Rattle.rules.specs.Reply.{after, reply};
ghost use Rattle.boundary_cases.specs.Made.{made};

use ospreyscreen::{
    ospreyscreen_abandon, ospreyscreen_commit, ospreyscreen_diagnose, ospreyscreen_lay,
    ospreyscreen_link, ospreyscreen_open_change, ospreyscreen_open_read, ospreyscreen_open_write,
    ospreyscreen_plan, ospreyscreen_poll, ospreyscreen_put, ospreyscreen_reach,
};
use rules::Reply;

// One number alone is an item, or of a poll a station.
#[derive(Clone, Copy)]
pub enum Call {
    Lay { n: u64, m: u64, value: u64 },
    Read(u64),
    Write { item: u64, value: u64 },
    Change(u64),
    Poll(u64),
    Put { station: u64, sort: u64 },
    Commit,
    Abandon,
    Link { station: u64, state: u64 },
    Reach(u64),
    Diagnose,
    Plan(u64),
}

impl Call {
    // Makes the call on the table; lay and change are lent the configuration.
    pub fn make(self, table: &mut [u8], config: &[u8]) -> Reply
        ensures value { result ≡ reply table.old (made self config.now) }
        ensures table_after { table.new ≡ after table.old (made self config.now) }
    {
        match self {
            Call::Lay { n, m, value } => ospreyscreen_lay(table, n, m, value, config),
            Call::Read(item) => ospreyscreen_open_read(table, item),
            Call::Write { item, value } => ospreyscreen_open_write(table, item, value),
            Call::Change(item) => ospreyscreen_open_change(table, item, config),
            Call::Poll(station) => ospreyscreen_poll(table, station),
            Call::Put { station, sort } => ospreyscreen_put(table, station, sort),
            Call::Commit => ospreyscreen_commit(table),
            Call::Abandon => ospreyscreen_abandon(table),
            Call::Link { station, state } => ospreyscreen_link(table, station, state),
            Call::Reach(item) => ospreyscreen_reach(table, item),
            Call::Diagnose => ospreyscreen_diagnose(table),
            Call::Plan(item) => ospreyscreen_plan(table, item),
        }
    }
}
