//! Reading parameters.

ghost use Rattle.std.specs.Prelude.{◌≡◌, ◌+◌, ◌<◌, ◌≤◌, length, drop, IfOk};
ghost use Rattle.lat_fields.specs.Reading.{Gives};
ghost use Rattle.lat_fields.specs.ParamsReading.{params_at};

use crate::fault::LayoutFault;
use crate::params::{Param, Params};
use crate::read::{bad, byte_of, counted_of};
use lat_base::{Bytes, Field};
use std::alloc::Global;

/// The parameters that stand at the place, and the place behind them. They are refused at the first code byte that is
/// missing or whose entry isn't all there. Takes memory for the list.
#[tactic(auto, unfolding(crate::specs::ParamsReading::params_at))]
pub fn params_of(alloc: Global, bytes: &[u8], place: usize) -> Result<(Params, usize), LayoutFault>
    requires { (place ≤ length bytes.now) × (length bytes.now ≤ 1500) }
    ensures gives { Gives (λ x. (
      x.0,
      x.1,
      drop x.1 bytes.now,
    )) result (params_at (length bytes.now + 1) place (drop place bytes.now)) }
    ensures within { IfOk result (λ x. x.1 ≤ length bytes.now) }
{
    let mut entries = Params::new(alloc);
    let mut at = place;
    for _ in 0..bytes.len() + 1 {
        let (code, behind) = byte_of(Field::Parameters, at, bytes, at)?;
        if code == 0 {
            return Ok((entries, behind));
        }
        let (text, behind) = counted_of(Field::Parameters, at, bytes, behind)?;
        let bytes = Bytes::copy(alloc, text)?;
        entries.push(Param { code, bytes })?;
        at = behind;
    }
    Err(bad(Field::Parameters, at))
}
