// The writer of standard forms (document 02, 2026-06): a valid configuration is taken to its standard form.
#![tactic(auto)]

ghost use Rattle.std.specs.Prelude.{◌≡◌};
ghost use Rattle.rules.specs.Outcome.{outcome_number};
ghost use Rattle.spelling.specs.Writer.{form_number, form_output};

use forming::form_of;
use quorum::CONFIG_SIZE;
use rules::Refusal;
use table::number::put_config_bytes;
use validity::is_valid;

// The standard form of a configuration of n stations, written into the output.
pub fn standard_form(n: u64, config: &[u8], out: &mut [u8]) -> Result<(), Refusal>
    ensures value { outcome_number result ≡ form_number n config.now out.old }
    ensures out_after { out.new ≡ form_output n config.now out.old }
{
    if n == 0 || 16 < n || out.len() != CONFIG_SIZE {
        return Err(Refusal::NoSuchThing);
    }
    if !is_valid(config, n as usize) {
        return Err(Refusal::FalseConfiguration);
    }
    put_config_bytes(out, 0, form_of(config));
    Ok(())
}
