//! A feed in a box, so that the feeds of the sessions may be of several types.
//!
//! It is a feed like the one in the box: it has left what that one has, and each call goes to it.
use crate::feeds::{Feed, FeedEvent};
use urpf_base::Failed;

/// A feed of some type.
pub type BoxedFeed = Box<dyn Feed + Send>;

impl Feed for BoxedFeed {
    ghost left = { λ b. (Feed-box b).left b.value };

    ghost faults = { λ b. (Feed-box b).faults b.value };

    fn next(&mut self, buf: &mut [u8]) -> Result<FeedEvent, Failed> {
        (**self).next(buf)
    }
}
