//! Values of rows that stand for numbers.

ghost use Rattle.std.specs.Prelude.{◌≡◌, ◌≤◌, true, length};
ghost use Rattle.fsrm_model.specs.store.Lasting.{flagged};
ghost use Rattle.record_fields.specs.Readers.{Shows};
ghost use Rattle.record_fields.specs.Writers.{Writes};
ghost use Rattle.image_codec.specs.Choices.{minutes as minutes_format, state as state_format};

use fsrm_model::QuotaState;
use record_fields::{Flaw, Reader, put_u8, put_u32};

/// Minutes in two's complement.
#[tactic(auto, unfolding(record_fields::specs::Formats::known_at))]
pub fn read_minutes(reader: &mut Reader<'_>) -> Result<i32, Flaw>
    ensures { Shows result reader.new (minutes_format.read reader.old) }
{
    let number = reader.read_u32()?;
    if number < 2_147_483_648 {
        return Ok(number as i32);
    }
    Ok(-1 - (4_294_967_295 - number) as i32)
}

pub fn put_minutes(minutes: &i32, into: &mut [u8], at: usize) -> usize
    requires { at ≤ length into.old }
    ensures written { Writes into.old at into.new result (minutes_format.spell minutes.now) }
    ensures legal { minutes_format.legal minutes.now ≡ true }
{
    let code = if *minutes < 0 {
        4_294_967_295 - (-1 - *minutes) as u32
    } else {
        *minutes as u32
    };
    put_u32(into, at, code)
}

#[tactic(auto, unfolding(record_fields::specs::Formats::known_at))]
pub fn read_state(reader: &mut Reader<'_>) -> Result<QuotaState, Flaw>
    ensures { Shows result reader.new (state_format.read reader.old) }
{
    let left = reader.left();
    match reader.read_u8()? {
        0 => Ok(QuotaState::Complete),
        1 => Ok(QuotaState::Disabled),
        2 => Ok(QuotaState::Incomplete),
        _ => Err(Flaw::Illegal { left }),
    }
}

/// A quota that is rebuilt is written as incomplete.
pub fn put_state(state: QuotaState, into: &mut [u8], at: usize) -> usize
    requires { at ≤ length into.old }
    ensures written { Writes into.old at into.new result (state_format.spell (flagged state)) }
    ensures legal { state_format.legal (flagged state) ≡ true }
{
    let code = match state {
        QuotaState::Complete => 0,
        QuotaState::Disabled => 1,
        QuotaState::Rebuilding | QuotaState::Incomplete => 2,
    };
    put_u8(into, at, code)
}
