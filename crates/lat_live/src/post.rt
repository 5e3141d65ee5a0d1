//! How a daemon's lines come to callers and to sessions.

ghost use Rattle.std.specs.Prelude.{◌≡◌};
ghost use Rattle.lat_live.specs.Posts.{door_of, kind_of};

use crate::plan::Post;
use lat_mind::Kind;
use lat_turns::{Device, Door, Sessions};
use std::slice;

impl Post {
    /// Of which kind the line is.
    pub(crate) fn kind(&self) -> Kind
        ensures { result ≡ kind_of self.now }
    {
        match self {
            Post::Calling(_) | Post::Switching(_) => Kind::Calling,
            Post::Answering => Kind::Answering,
            Post::Offering(_) => Kind::Offering,
        }
    }

    /// What the line is for, at a daemon with these devices.
    pub(crate) fn door<'a>(&'a self, devices: &'a [Device]) -> Door<'a>
        ensures { result ≡ door_of devices.now self.now }
    {
        match self {
            Post::Calling(service) => Door::new(Some(*service), &[], None, Sessions::One),
            Post::Switching(service) => Door::new(Some(*service), &[], None, Sessions::Several),
            Post::Answering => Door::new(None, devices, None, Sessions::One),
            Post::Offering(device) => {
                let own = slice::from_ref(device);
                Door::new(None, own, Some(device.service), Sessions::One)
            }
        }
    }
}
