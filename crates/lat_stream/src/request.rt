//! The parameter of a start that bears its request. It takes no memory.

ghost use Rattle.std.specs.Prelude.{◌≡◌, ◌+◌, ◌≤◌, ◌++◌, ◌&&◌, length, nat_eq};
ghost use Rattle.lat_fields.specs.Params.{params_text};
ghost use Rattle.lat_model.specs.sessions.Slots as sessions;
ghost use Rattle.lat_stream.specs.Wire.{number_in, request_in, request_params};

use lat_base::Payload;
use lat_fields::{Param, Params, write_param};

/// The code of the parameter that bears a request.
const REQUEST: u8 = 5;

/// How many bytes the parameters of a start have.
pub(crate) fn request_len(request: Option<u16>) -> u8
    ensures value { result ≡ sessions.params_len request }
    ensures text { result ≡ length (params_text (request_params request)) }
{
    match request {
        None => 1,
        Some(_) => 5,
    }
}

/// The parameters of a start.
pub(crate) fn write_request(out: &mut Payload, request: Option<u16>)
    requires { length out.old + sessions.params_len request ≤ 1500 }
    ensures { out.new ≡ out.old ++ params_text (request_params request) }
{
    if let Some(id) = request {
        write_param(out, REQUEST, &id.to_le_bytes());
    }
    out.push(0);
}

/// The request of a start: its first parameter with code 5 and two bytes, of which the low one stands first.
pub fn request_of(params: &Params) -> Option<u16>
    ensures { result ≡ request_in params.now }
{
    for param in params.as_slice().iter() {
        if is_request(param) {
            return Some(number_of(param.bytes.as_slice()));
        }
    }
    None
}

fn is_request(param: &Param) -> bool
    ensures { result ≡ (nat_eq param.now.code 5 && nat_eq (length param.now.bytes) 2) }
{
    param.code == REQUEST && param.bytes.as_slice().len() == 2
}

#[tactic(auto, using(crate::proofs::Requests::number_two))]
fn number_of(bytes: &[u8]) -> u16
    requires { length bytes.now ≡ 2 }
    ensures { result ≡ number_in bytes.now }
{
    u16::from_le_bytes([bytes[0], bytes[1]])
}
