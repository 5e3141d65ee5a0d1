//! The words of services and circuits.

ghost use Rattle.std.specs.Prelude.{◌≡◌, ◌++◌, OnOk, string_bytes};
ghost use Rattle.lat_log.specs.Words.{circuit_words, circuit_news_words, offered_words, offered_news_words, service_words, joined_words};

use crate::entry::{Circuit, CircuitNews, Offered, OfferedNews};
use crate::why::cause_onto;
use lat_text::{address_onto, name_onto};
use std::alloc::AllocError;

fn offered_onto(text: &mut String, offered: &Offered) -> Result<(), AllocError>
    ensures { OnOk result (string_bytes text.new ≡ string_bytes text.old ++ offered_words offered.now) }
{
    text.push_str("service ")?;
    name_onto(text, &offered.service)?;
    text.push_str(" at ")?;
    name_onto(text, &offered.node)?;
    text.push_str(" ")?;
    address_onto(text, offered.address)
}

fn offered_news_onto(text: &mut String, news: OfferedNews, rating: u8) -> Result<(), AllocError>
    ensures { OnOk result (string_bytes text.new
        ≡ string_bytes text.old ++ offered_news_words news rating) }
{
    match news {
        OfferedNews::Appeared => write!(text, " appears rating {rating}"),
        OfferedNews::Changed => write!(text, " changes rating {rating}"),
        OfferedNews::Lost => text.push_str(" is lost"),
    }
}

/// Adds what is new of a service.
pub fn service_onto(
    text: &mut String,
    offered: &Offered,
    news: OfferedNews,
) -> Result<(), AllocError>
    ensures { OnOk result (string_bytes text.new
        ≡ string_bytes text.old ++ service_words offered.now news) }
{
    offered_onto(text, offered)?;
    offered_news_onto(text, news, offered.rating)
}

fn circuit_onto(text: &mut String, circuit: &Circuit) -> Result<(), AllocError>
    ensures { OnOk result (string_bytes text.new ≡ string_bytes text.old ++ circuit_words circuit.now) }
{
    let id = circuit.id;
    write!(text, "circuit {id} with ")?;
    name_onto(text, &circuit.name)?;
    text.push_str(" ")?;
    address_onto(text, circuit.address)
}

fn circuit_news_onto(text: &mut String, news: CircuitNews) -> Result<(), AllocError>
    ensures { OnOk result (string_bytes text.new ≡ string_bytes text.old ++ circuit_news_words news) }
{
    match news {
        CircuitNews::Up => text.push_str(" up"),
        CircuitNews::Down(cause) => {
            text.push_str(" down: ")?;
            cause_onto(text, cause)
        }
    }
}

/// Adds what is new of a circuit.
pub fn joined_onto(
    text: &mut String,
    circuit: &Circuit,
    news: CircuitNews,
) -> Result<(), AllocError>
    ensures { OnOk result (string_bytes text.new
        ≡ string_bytes text.old ++ joined_words circuit.now news) }
{
    circuit_onto(text, circuit)?;
    circuit_news_onto(text, news)
}
