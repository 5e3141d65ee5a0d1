//! Parameters in print.

ghost use Rattle.std.specs.Prelude.{◌≡◌, ◌++◌, OnOk, string_bytes};
ghost use Rattle.std.specs.List.{flat_map};
ghost use Rattle.lat_show.specs.ParamsPrinted.{param_printed, further_param_printed, params_printed};

use lat_fields::{Param, Params};
use lat_text::hex_onto;
use std::alloc::{AllocError, Global};

fn param_onto(alloc: Global, text: &mut String, param: &Param) -> Result<(), AllocError>
    ensures { OnOk result (string_bytes text.new ≡ string_bytes text.old ++ param_printed param.now) }
{
    let code = param.code;
    write!(text, "{code}:")?;
    hex_onto(alloc, text, param.bytes.as_slice())
}

fn further_param_onto(alloc: Global, text: &mut String, param: &Param) -> Result<(), AllocError>
    ensures { OnOk result (string_bytes text.new
        ≡ string_bytes text.old ++ further_param_printed param.now) }
{
    text.push_str(",")?;
    param_onto(alloc, text, param)
}

fn further_params_onto(alloc: Global, text: &mut String, params: &[Param]) -> Result<(), AllocError>
    ensures { OnOk result (string_bytes text.new
        ≡ string_bytes text.old ++ flat_map further_param_printed params.now) }
{
    for param in params {
        further_param_onto(alloc, text, param)?;
    }
    Ok(())
}

/// Adds parameters to a text: each as its code and its bytes, with commas between them, or `-` for none.
pub fn params_onto(alloc: Global, text: &mut String, params: &Params) -> Result<(), AllocError>
    ensures { OnOk result (string_bytes text.new
        ≡ string_bytes text.old ++ params_printed params.now) }
{
    match params.as_slice() {
        [] => text.push_str("-"),
        [first, further @ ..] => {
            param_onto(alloc, text, first)?;
            further_params_onto(alloc, text, further)
        }
    }
}
