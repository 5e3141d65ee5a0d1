//! Rounds of data from the master to the slave, in which each frame is delivered twice.

use crate::end::End;
use lat_base::{Heard, Item, Memory, OutBox};
use lat_frames::{FrameFault, message_ok, read_message};
use lat_script::{Came, byte_of};
use std::alloc::Global;

/// How many bytes are put in a round, and how many items are taken.
#[derive(Clone, Copy)]
pub struct Round {
    pub size: u8,
    pub take: u16,
}

// Puts the next bytes, behind so many, at the master's session 1, and tells how many were taken.
fn put_next(master: &mut End, size: u8, before: u64) -> u64 {
    let mut bytes = [0; 255];
    for (place, byte) in bytes.iter_mut().enumerate() {
        *byte = byte_of(before.saturating_add(place as u64));
    }
    if !master.circuit.lives() {
        return 0;
    }
    match master.circuit.put(1, &bytes[..usize::from(size)]) {
        Ok(count) => count as u64,
        Err(_) => 0,
    }
}

// Takes items of the slave's session 1, and looks at each.
fn take_next(slave: &mut End, items: &mut [Item], came: &mut Came) {
    if !slave.circuit.lives() {
        return;
    }
    let Ok(count) = slave.circuit.take(1, items) else {
        return;
    };
    for item in &items[..count] {
        came.look(*item);
    }
}

// Gives an end a moment.
fn pass(end: &mut End, now: u64, out: &mut OutBox) {
    if out.len() <= 240 && end.circuit.lives() && end.circuit.moment() <= now {
        let _ = end.circuit.time(now, out);
    }
}

// Hands one payload to an end.
fn hand(
    alloc: Global,
    payload: &[u8],
    end: &mut End,
    now: u64,
    back: &mut OutBox,
) -> Result<bool, Memory> {
    let message = match read_message(alloc, payload) {
        Ok(message) => message,
        Err(FrameFault::Bad(_)) => return Ok(false),
        Err(FrameFault::Memory) => return Err(Memory),
    };
    if back.len() > 240
        || !message_ok(&message)
        || !end.circuit.lives()
        || now < end.circuit.moment()
    {
        return Ok(false);
    }
    Ok(matches!(end.circuit.heard(&message, now, back), Heard::Taken(_)))
}

// Hands one payload to an end twice, and tells how many messages were taken.
fn hand_twice(
    alloc: Global,
    payload: &[u8],
    end: &mut End,
    now: u64,
    back: &mut OutBox,
) -> Result<u64, Memory> {
    let first = hand(alloc, payload, end, now, back)?;
    let second = hand(alloc, payload, end, now, back)?;
    Ok(u64::from(first).saturating_add(u64::from(second)))
}

// Hands all frames to an end, each twice, and tells how many messages were taken.
fn hand_all(
    alloc: Global,
    frames: &OutBox,
    end: &mut End,
    now: u64,
    back: &mut OutBox,
) -> Result<u64, Memory> {
    let mut taken = 0u64;
    for frame in frames.frames() {
        taken = taken.saturating_add(hand_twice(alloc, frame.payload.bytes(), end, now, back)?);
    }
    Ok(taken)
}

// The later of two ends' moments, and 80 ms more.
fn next_moment(master: &End, slave: &End) -> u64 {
    master
        .circuit
        .moment()
        .max(slave.circuit.moment())
        .saturating_add(80)
}

/// Runs so many rounds and tells what came.
pub fn rounds_onto(
    alloc: Global,
    master: &mut End,
    slave: &mut End,
    rounds: u64,
    round: Round,
    text: &mut String,
) -> Result<(), Memory> {
    let mut there = OutBox::make(alloc)?;
    let mut back = OutBox::make(alloc)?;
    let mut items = vec![in alloc; Item::Byte(0); usize::from(round.take)]?;
    let (mut put, mut messages) = (0u64, 0u64);
    let mut came = Came { items: 0, wrong: 0 };
    for _ in 0..rounds {
        let now = next_moment(master, slave);
        put = put.saturating_add(put_next(master, round.size, put));
        there.clear();
        back.clear();
        pass(master, now, &mut there);
        let taken = hand_all(alloc, &there, slave, now, &mut back)?;
        messages = messages.saturating_add(taken);
        pass(slave, now, &mut back);
        there.clear();
        hand_all(alloc, &back, master, now, &mut there)?;
        take_next(slave, &mut items, &mut came);
    }
    let Came { items, wrong } = came;
    write!(
        text,
        "put {put} messages {messages} items {items} wrong {wrong}\n"
    )?;
    Ok(())
}
