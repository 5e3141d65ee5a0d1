//! Pairs of daemons over the loopback address, with callers in turn on their lines; daemons that don't come to run; and what people at
//! their lines see, scene by scene.

mod daemon;
mod ends;
mod loopback;
mod refused;
mod scenes;
mod stage;
