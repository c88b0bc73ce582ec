//! What a publisher tells a pass.
ghost use Rattle.std.specs.Prelude.{◌≡◌};

use crate::history::{Front, Naming};
use std::marker::Model;

/// What a publisher has published. A pass that learns it uses it up.
#[derive(Drop)]
pub struct Note<J: Naming> {
    pub(crate) front: Front<J>,
}

impl<J: Naming> Model for Note<J> {
    ghost use Rattle.epoch_publish.specs.Publications.{Told};

    ghost Value = { Told };

    ghost view = { λ n. record { identity = J.book; opening = J.opening; list = n.front } };
}
