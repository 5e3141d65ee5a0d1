//! Each module tests one crate: `lat_udp` (its lines with callers in `ports`) and `lat_cell` (without threads).

mod cell;
mod ports;
mod udp;
