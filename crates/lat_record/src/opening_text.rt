//! What a core was made of, in print.

ghost use Rattle.std.specs.Prelude.{◌≡◌, ◌++◌, IfOk, OnOk, codes, string_bytes};
ghost use Rattle.lat_text.specs.HexText.{hex_text};
ghost use Rattle.std.specs.List.{flat_map};
ghost use Rattle.lat_record.specs.OpeningText.{station_words, start_words, span_word, circuit_line, server_groups_line, node_groups_line, offer_line, service_line, rate_words, rate_line, server_front, server_text, switch_text, node_line, node_front, node_text, core_text};

use crate::opening::{NodeOpening, Opening, Rate};
use lat_base::{Addr, Name};
use lat_node::{NodeConfig, Timing};
use lat_server::{Offer, ServerConfig};
use lat_switch::SwitchConfig;
use lat_text::{address_onto, hex_onto, name_onto};
use std::alloc::{AllocError, Global};

fn station_onto(text: &mut String, own: Addr, name: &Name, lines: u8) -> Result<(), AllocError>
    ensures { OnOk result (string_bytes text.new
        ≡ string_bytes text.old ++ station_words own name.now lines) }
{
    address_onto(text, own)?;
    text.push_str(" ")?;
    name_onto(text, name)?;
    write!(text, " {lines}")
}

fn start_onto(text: &mut String, first: u16, prompt: bool) -> Result<(), AllocError>
    ensures { OnOk result (string_bytes text.new
        ≡ string_bytes text.old ++ start_words first prompt) }
{
    let word = if prompt { " prompt" } else { "" };
    write!(text, "first {first}{word}")
}

fn span_word(wide: bool) -> &'static str
    ensures { result.now ≡ span_word wide }
{
    if wide { "word" } else { "byte" }
}

fn circuit_onto(text: &mut String, timing: Timing) -> Result<(), AllocError>
    ensures { OnOk result (string_bytes text.new ≡ string_bytes text.old ++ circuit_line timing) }
{
    let (timer, keepalive, sessions) = (timing.timer, timing.keepalive, timing.sessions);
    let (extra, ceiling, span) = (timing.extra, timing.ceiling, span_word(timing.wide));
    write!(
        text,
        "circuit {timer} {keepalive} {sessions} {extra} {ceiling} {span}\n"
    )
}

// The digits of bytes, `-` for no byte.
fn digits_of(alloc: Global, bytes: &[u8]) -> Result<String, AllocError>
    ensures { IfOk result (λ digits. string_bytes digits ≡ hex_text bytes.now) }
{
    let mut digits = String::new(alloc);
    hex_onto(alloc, &mut digits, bytes)?;
    Ok(digits)
}

// A line of a word and digits.
fn digits_onto(text: &mut String, word: &str, digits: &str) -> Result<(), AllocError>
    ensures { OnOk result (string_bytes text.new
        ≡ string_bytes text.old ++ (word.now ++ (digits.now ++ codes "\n"))) }
{
    write!(text, "{word}{digits}\n")
}

fn server_groups_onto(alloc: Global, text: &mut String, groups: &[u8]) -> Result<(), AllocError>
    ensures { OnOk result (string_bytes text.new
        ≡ string_bytes text.old ++ server_groups_line groups.now) }
{
    let digits = digits_of(alloc, groups)?;
    digits_onto(text, "server-groups ", digits.as_str())
}

fn node_groups_onto(alloc: Global, text: &mut String, groups: &[u8]) -> Result<(), AllocError>
    ensures { OnOk result (string_bytes text.new
        ≡ string_bytes text.old ++ node_groups_line groups.now) }
{
    let digits = digits_of(alloc, groups)?;
    digits_onto(text, "node-groups ", digits.as_str())
}

fn offer_onto(text: &mut String, offer: &Offer) -> Result<(), AllocError>
    ensures { OnOk result (string_bytes text.new
        ≡ string_bytes text.old ++ offer_line offer.now) }
{
    let line = offer.line;
    write!(text, "offer {line} ")?;
    name_onto(text, &offer.service)?;
    text.push_str("\n")
}

fn offers_onto(text: &mut String, offers: &[Offer]) -> Result<(), AllocError>
    ensures { OnOk result (string_bytes text.new
        ≡ string_bytes text.old ++ flat_map offer_line offers.now) }
{
    for offer in offers {
        offer_onto(text, offer)?;
    }
    Ok(())
}

fn service_onto(text: &mut String, name: &Name) -> Result<(), AllocError>
    ensures { OnOk result (string_bytes text.new
        ≡ string_bytes text.old ++ service_line name.now) }
{
    text.push_str("service ")?;
    name_onto(text, name)?;
    text.push_str("\n")
}

fn services_onto(text: &mut String, names: &[Name]) -> Result<(), AllocError>
    ensures { OnOk result (string_bytes text.new
        ≡ string_bytes text.old ++ flat_map service_line names.now) }
{
    for name in names {
        service_onto(text, name)?;
    }
    Ok(())
}

fn rate_words_onto(text: &mut String, rate: Rate) -> Result<(), AllocError>
    ensures { OnOk result (string_bytes text.new ≡ string_bytes text.old ++ rate_words rate) }
{
    match rate {
        Rate::Free => text.push_str("free"),
        Rate::Each(rating) => write!(text, "each:{rating}"),
        Rate::WhileFree(rating) => write!(text, "while-free:{rating}"),
    }
}

fn rate_onto(text: &mut String, rate: Rate) -> Result<(), AllocError>
    ensures { OnOk result (string_bytes text.new ≡ string_bytes text.old ++ rate_line rate) }
{
    text.push_str("rate ")?;
    rate_words_onto(text, rate)?;
    text.push_str("\n")
}

fn rates_onto(text: &mut String, rates: &[Rate]) -> Result<(), AllocError>
    ensures { OnOk result (string_bytes text.new
        ≡ string_bytes text.old ++ flat_map rate_line rates.now) }
{
    for rate in rates {
        rate_onto(text, *rate)?;
    }
    Ok(())
}

fn server_front_onto(
    alloc: Global,
    text: &mut String,
    config: &ServerConfig,
) -> Result<(), AllocError>
    ensures { OnOk result (string_bytes text.new
        ≡ string_bytes text.old ++ server_front config.now) }
{
    text.push_str("server ")?;
    station_onto(text, config.own, &config.name, config.lines)?;
    text.push_str(" ")?;
    start_onto(text, config.first, config.prompt)?;
    text.push_str("\n")?;
    circuit_onto(text, config.timing)?;
    server_groups_onto(alloc, text, &config.groups)
}

fn server_onto(alloc: Global, text: &mut String, config: &ServerConfig) -> Result<(), AllocError>
    ensures { OnOk result (string_bytes text.new
        ≡ string_bytes text.old ++ server_text config.now) }
{
    server_front_onto(alloc, text, config)?;
    offers_onto(text, config.offers.as_slice())
}

fn switch_onto(alloc: Global, text: &mut String, config: &SwitchConfig) -> Result<(), AllocError>
    ensures { OnOk result (string_bytes text.new
        ≡ string_bytes text.old ++ switch_text config.now) }
{
    text.push_str("switch ")?;
    station_onto(text, config.own, &config.name, config.lines)?;
    text.push_str(" ")?;
    start_onto(text, config.first, config.prompt)?;
    text.push_str("\n")?;
    circuit_onto(text, config.timing)?;
    server_groups_onto(alloc, text, &config.groups)
}

fn node_line_onto(text: &mut String, config: &NodeConfig) -> Result<(), AllocError>
    ensures { OnOk result (string_bytes text.new
        ≡ string_bytes text.old ++ node_line config.now) }
{
    let (incarnation, timer) = (config.incarnation, config.timer);
    text.push_str("node ")?;
    station_onto(text, config.own, &config.name, config.lines)?;
    write!(text, " {incarnation} {timer} ")?;
    start_onto(text, config.first, config.prompt)?;
    text.push_str("\n")
}

fn node_front_onto(alloc: Global, text: &mut String, config: &NodeConfig) -> Result<(), AllocError>
    ensures { OnOk result (string_bytes text.new
        ≡ string_bytes text.old ++ node_front config.now) }
{
    node_line_onto(text, config)?;
    circuit_onto(text, config.timing)?;
    node_groups_onto(alloc, text, config.groups.as_slice())
}

fn node_onto(
    alloc: Global,
    text: &mut String,
    config: &NodeConfig,
    rates: &[Rate],
) -> Result<(), AllocError>
    ensures { OnOk result (string_bytes text.new
        ≡ string_bytes text.old ++ node_text config.now rates.now) }
{
    node_front_onto(alloc, text, config)?;
    services_onto(text, config.services.as_slice())?;
    rates_onto(text, rates)
}

/// Adds the lines of a core between the first line and `go`. After want of memory a part of them may stand in the text.
pub(crate) fn core_onto(
    alloc: Global,
    text: &mut String,
    opening: &Opening,
) -> Result<(), AllocError>
    ensures { OnOk result (string_bytes text.new
        ≡ string_bytes text.old ++ core_text opening.now) }
{
    match opening {
        Opening::Server(config) => server_onto(alloc, text, config),
        Opening::Switch(config) => switch_onto(alloc, text, config),
        Opening::Node(NodeOpening { config, rates }) => {
            node_onto(alloc, text, config, rates.as_slice())
        }
    }
}
