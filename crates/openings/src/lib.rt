// The calls that open and abandon a round, on a sound table: each makes its tests, and if they pass writes the round.
#![tactic(auto)]

ghost use Rattle.std.specs.Prelude.{◌≡◌, true};
ghost use Rattle.layout.specs.Soundness.{sound};
ghost use Rattle.rules.specs.Calls.{open_read, open_write, open_change, abandon};
ghost use Rattle.rules.specs.Outcome.{plain_reply};
ghost use Rattle.rules.specs.Reply.{reply, after};

use forming::form_of;
use layout::Kind;
use numbers::alone::check_open_round;
use numbers::checks::{check_open, check_open_change};
use quorum::CONFIG_SIZE;
use rounds::sound::Sound;
use rules::Refusal;
use table::head::{close_round, open_round};

pub fn open_read_on(t: &mut [u8], i: u64) -> Result<(), Refusal>
    requires { sound t.old ≡ true }
    ensures value { plain_reply result ≡ reply t.old (open_read i) }
    ensures table_after { t.new ≡ after t.old (open_read i) }
{
    let table = Sound { bytes: t };
    check_open(table, i)?;
    open_round(t, Kind::Read, i as u8, 0, [0u8; CONFIG_SIZE]);
    Ok(())
}

pub fn open_write_on(t: &mut [u8], i: u64, value: u64) -> Result<(), Refusal>
    requires { sound t.old ≡ true }
    ensures value { plain_reply result ≡ reply t.old (open_write i value) }
    ensures table_after { t.new ≡ after t.old (open_write i value) }
{
    let table = Sound { bytes: t };
    check_open(table, i)?;
    open_round(t, Kind::Write, i as u8, value, [0u8; CONFIG_SIZE]);
    Ok(())
}

// The target is stored in standard form.
pub fn open_change_on(t: &mut [u8], i: u64, target: &[u8]) -> Result<(), Refusal>
    requires { sound t.old ≡ true }
    ensures value { plain_reply result ≡ reply t.old (open_change i target.now) }
    ensures table_after { t.new ≡ after t.old (open_change i target.now) }
{
    let table = Sound { bytes: t };
    check_open_change(table, i, target)?;
    open_round(t, Kind::Change, i as u8, 0, form_of(target));
    Ok(())
}

pub fn abandon_on(t: &mut [u8]) -> Result<(), Refusal>
    requires { sound t.old ≡ true }
    ensures value { plain_reply result ≡ reply t.old abandon }
    ensures table_after { t.new ≡ after t.old abandon }
{
    let table = Sound { bytes: t };
    check_open_round(table)?;
    close_round(t);
    Ok(())
}
