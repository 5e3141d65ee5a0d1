//! What is read of a file.

ghost use Rattle.std.specs.Prelude.{◌≡◌, ◌+◌, ◌<◌, ◌^◌, [], ◌∷◌, ◌++◌, OnOk, None};
ghost use Rattle.lat_pcap.specs.Held.{empty, added};

use crate::fault::Wrong;
use crate::frame::Frame;
use lat_base::Memory;
use std::alloc::Global;
use std::marker::Model;

/// A list of frames. Contracts see the list.
pub struct Frames {
    frames: Vec<Frame>,
}

impl Drop for Frames {
    fn drop(self) {
        let Self { frames } = self;
    }
}

impl Model for Frames {
    ghost use Rattle.std.specs.Prelude.{List};
    ghost use Rattle.lat_pcap.specs.declared.frame.Frame.{Frame};

    ghost Value = { List Frame };

    ghost view = { λ a. a.frames.items };
}

impl Frames {
    /// No frame.
    pub fn new(alloc: Global) -> Frames
        ensures { result ≡ [] }
    {
        Frames {
            frames: Vec::new(alloc),
        }
    }

    /// Adds a frame at the end. Takes memory for it.
    pub fn push(&mut self, frame: Frame) -> Result<(), Memory>
        ensures { OnOk result (self.new ≡ self.old ++ frame ∷ []) }
    {
        self.frames.push(frame)?;
        Ok(())
    }

    /// The frames, first to last.
    pub fn as_slice(&self) -> &[Frame]
        ensures { result.now ≡ self.now }
    {
        self.frames.as_slice()
    }
}

/// What a file holds, up to its end or to the first part that is wrong.
pub struct Contents {
    /// The frames of the type 60-04, in the order of their records.
    pub frames: Frames,
    /// How many records hold another frame.
    pub others: usize,
    /// The first part that is wrong, if one is.
    pub wrong: Option<Wrong>,
}

impl Drop for Contents {
    fn drop(self) {
        let Self {
            frames,
            others,
            wrong,
        } = self;
    }
}

impl Contents {
    pub(crate) fn new(alloc: Global) -> Contents
        ensures { result ≡ empty None }
    {
        Contents {
            frames: Frames::new(alloc),
            others: 0,
            wrong: None,
        }
    }

    /// Adds what a record holds: a frame, or none of ours.
    pub(crate) fn add(&mut self, found: Option<Frame>) -> Result<(), Memory>
        requires { self.old.others + 1 < 2 ^ 64 }
        ensures { OnOk result (self.new ≡ added self.old found) }
    {
        match found {
            Some(frame) => self.frames.push(frame)?,
            None => self.others += 1,
        }
        Ok(())
    }
}
