//! Blocks over a node with a tariff.

mod play;

ghost use Rattle.std.specs.Prelude.{◌≡◌, ◌≤◌, true, is_ok};
ghost use Rattle.lat_base.specs.Names.{name_read};
ghost use Rattle.lat_tariff.specs.Tariffs.{AreKnown};

use crate::names::{NODE, USUAL};
use crate::tariff::play::Play;
use lat_base::{Bytes, Memory};
use lat_node::{NodeConfig, NodeCore};
use lat_script::{Part, ScriptFault, byte_within, known_name, no_command, word};
use lat_tariff::{Rule, SteadyRule, Tariff, TwentyPerFreeLine, WhileFree, are_apart};
use std::alloc::Global;

// One rule more.
fn add<R: SteadyRule>(rules: &mut Vec<Rule<R>>, service: &[u8], rule: R) -> Result<(), Memory>
    requires known { AreKnown R.fact rules.old.items }
    requires fact { R.fact rule }
    requires named { is_ok (name_read service.now) ≡ true }
    ensures known { AreKnown R.fact rules.new.items }
{
    rules.push(Rule {
        name: known_name(service),
        rule,
    })?;
    Ok(())
}

// A node of so many lines with these rules, and what is done at it.
fn play_rules<R: SteadyRule>(
    alloc: Global,
    rules: Vec<Rule<R>>,
    lines: u8,
    block: Part,
    text: &mut String,
) -> Result<(), Memory>
    requires known { AreKnown R.fact rules.items }
    requires lines { (1 ≤ lines) × (lines ≤ 64) }
{
    if rules.is_empty() || rules.len() > 32 || !are_apart(rules.as_slice()) {
        write!(text, "no tariff\n")?;
        return Ok(());
    }
    let tariff = Tariff::make(rules);
    let config = NodeConfig {
        own: NODE,
        name: known_name(b"VAX1"),
        incarnation: 1,
        lines,
        services: tariff.names(alloc)?,
        timer: 30,
        groups: Bytes::copy(alloc, &[])?,
        timing: USUAL,
        prompt: false,
        first: 1,
    };
    let core = NodeCore::make(alloc, &config, tariff)?;
    Play::new(core).act_all(alloc, block, text)
}

// Two services, by rules of two types.
fn play_two(alloc: Global, lines: u8, block: Part, text: &mut String) -> Result<(), Memory>
    requires { (1 ≤ lines) × (lines ≤ 64) }
{
    let login: Box<dyn SteadyRule + Send> = Box::new(alloc, TwentyPerFreeLine)?;
    let print: Box<dyn SteadyRule + Send> = Box::new(alloc, WhileFree { rating: 9 })?;
    let mut rules = Vec::new(alloc);
    add(&mut rules, b"LOGIN", login)?;
    add(&mut rules, b"PRINT", print)?;
    play_rules(alloc, rules, lines, block, text)
}

// 32 services.
fn play_many(alloc: Global, lines: u8, block: Part, text: &mut String) -> Result<(), Memory>
    requires { (1 ≤ lines) × (lines ≤ 64) }
{
    let mut rules = Vec::new(alloc);
    for rating in 1..33_u8 {
        let service = [b'N', b'0' + rating / 10, b'0' + rating % 10];
        add(&mut rules, &service, WhileFree { rating })?;
    }
    play_rules(alloc, rules, lines, block, text)
}

/// What a block does, printed.
pub fn play_block(alloc: Global, block: Part, text: &mut String) -> Result<(), ScriptFault> {
    let first = block.text.lines().next().unwrap_or("");
    match word(first, 0) {
        "two" => Ok(play_two(alloc, byte_within(1, 64, first, 1)?, block, text)?),
        "many" => Ok(play_many(alloc, byte_within(1, 64, first, 1)?, block, text)?),
        _ => Err(no_command(0)),
    }
}
