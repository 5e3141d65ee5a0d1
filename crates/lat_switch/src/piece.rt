//! What the bytes of a put say: keys, and the bytes between them.

ghost use Rattle.std.specs.Prelude.{◌≡◌, ◌≤◌, ◌<◌, ◌∷◌, IfOk, length, drop, position};
ghost use Rattle.lat_switch.specs.Pieces.{is_key, pieces_of, run_length};

use lat_base::{Bytes, Memory};
use std::alloc::Global;
use std::collections::VecDeque;

/// The key for one more session.
const CONNECT_KEY: u8 = 0x1c;

/// The key for the next session.
const NEXT_KEY: u8 = 0x1d;

/// A part of the bytes of a put.
#[derive(Drop)]
pub(crate) enum Piece {
    /// Bytes that aren't keys, as many as stand together.
    Run(Bytes),
    /// The key for the next session.
    Next,
    /// The key for one more session.
    Connect,
}

fn is_key(byte: u8) -> bool
    ensures { result ≡ is_key byte }
{
    byte == NEXT_KEY || byte == CONNECT_KEY
}

fn first_key(bytes: &[u8]) -> Option<usize>
    ensures { result ≡ position is_key bytes.now }
{
    bytes.iter().position(|byte| is_key(*byte))
}

// How many bytes at the front aren't keys.
fn run_length(bytes: &[u8]) -> usize
    ensures value { result ≡ run_length bytes.now }
    ensures within { result ≤ length bytes.now }
{
    first_key(bytes).unwrap_or(bytes.len())
}

// The first piece of these bytes, of which there must be one, and how many bytes it has.
fn first_piece(alloc: Global, bytes: &[u8]) -> Result<(Piece, usize), Memory>
    requires { 0 < length bytes.now }
    ensures value { IfOk result (λ x. pieces_of bytes.now ≡ x.0 ∷ pieces_of (drop x.1 bytes.now)) }
    ensures some { IfOk result (λ x. 1 ≤ x.1) }
    ensures within { IfOk result (λ x. x.1 ≤ length bytes.now) }
{
    if bytes[0] == NEXT_KEY {
        return Ok((Piece::Next, 1));
    }
    if bytes[0] == CONNECT_KEY {
        return Ok((Piece::Connect, 1));
    }
    let length = run_length(bytes);
    Ok((Piece::Run(Bytes::copy(alloc, &bytes[..length])?), length))
}

/// What these bytes say, in order. Takes memory for it; `Memory` where none is found.
pub(crate) fn pieces_of(alloc: Global, bytes: &[u8]) -> Result<VecDeque<Piece>, Memory>
    ensures { IfOk result (λ pieces. pieces.items ≡ pieces_of bytes.now) }
{
    let mut pieces = VecDeque::new(alloc);
    let mut at = 0;
    while at < bytes.len() {
        let (piece, size) = first_piece(alloc, &bytes[at..])?;
        pieces.push_back(piece)?;
        at += size;
    }
    Ok(pieces)
}
