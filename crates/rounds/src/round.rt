// The open round, as a value. Each method hands the round back.
ghost use Rattle.std.specs.Prelude.{◌≡◌, true, ◌≤◌, length};
ghost use Rattle.layout.specs.Layout.{head_size};
ghost use Rattle.layout.specs.Rounds.{with_poll, with_put, with_link};
ghost use Rattle.layout.specs.Fields.{round_of};
ghost use Rattle.rounds.specs.Round.{round_in, as_round, is_data};

use layout::{Sort, TARGET_AT};
use quorum::CONFIG_SIZE;
use table::head;
use table::number::config_bytes_at;

// The kind is the table's byte: a round is read of any bytes long enough, and in those that are no sound table it may be above that of each `Kind`.
#[derive(Clone, Copy)]
pub struct Round {
    pub kind: u8,
    pub item: usize,
    pub polled: u16,
    pub data_puts: u16,
    pub config_puts: u16,
    pub value: u64,
    pub target: [u8; CONFIG_SIZE],
}

impl Round {
    // The round of the table.
    pub fn of(t: &[u8]) -> Round
        requires { head_size ≤ length t.now }
        ensures value { result ≡ round_in t.now }
        ensures round { as_round result ≡ round_of t.now }
    {
        Round {
            kind: head::kind_byte(t),
            item: head::item(t),
            polled: head::polled(t),
            data_puts: head::data_puts(t),
            config_puts: head::config_puts(t),
            value: head::value(t),
            target: config_bytes_at(t, TARGET_AT),
        }
    }

    // The station joins the polled set.
    pub fn poll(self, station: usize) -> Round
        ensures { as_round result ≡ with_poll (as_round self) station }
    {
        let mut r = self;
        r.polled = sets::with_station(self.polled, station);
        r
    }

    // The station joins a put set.
    pub fn put(self, station: usize, sort: Sort) -> Round
        ensures { as_round result ≡ with_put (as_round self) station (is_data sort) }
    {
        let mut r = self;
        match sort {
            Sort::Data => r.data_puts = sets::with_station(self.data_puts, station),
            Sort::Configuration => r.config_puts = sets::with_station(self.config_puts, station),
        }
        r
    }

    // The station goes off and leaves both put sets; it stays in the polled set.
    pub fn drop(self, station: usize) -> Round
        ensures { as_round result ≡ with_link (as_round self) station true }
    {
        let mut r = self;
        r.data_puts = sets::without_station(self.data_puts, station);
        r.config_puts = sets::without_station(self.config_puts, station);
        r
    }
}
