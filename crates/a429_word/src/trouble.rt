//! What may stop any call, whatever it does.

ghost use Rattle.a429_word.specs.declared.trouble.Trouble.TheVariants as trouble;

use crate::tally::Device;
use std::alloc::AllocError;

/// Why a call failed, where nothing is wrong with its input.
#[derive(Clone, Copy, Debug, PartialEq, Eq, Drop)]
pub enum Trouble {
    /// A reader, a writer or another device has failed.
    Device,
    /// Memory was refused.
    OutOfMemory,
}

impl From<Device> for Trouble {
    ghost use Rattle.std.specs.Prelude.{◌≡◌};

    ghost from_gives = { λ _ e. e ≡ trouble.Device };

    fn from(_: Device) -> Trouble {
        Trouble::Device
    }
}

impl From<AllocError> for Trouble {
    ghost use Rattle.std.specs.Prelude.{◌≡◌};

    ghost from_gives = { λ _ e. e ≡ trouble.OutOfMemory };

    fn from(_: AllocError) -> Trouble {
        Trouble::OutOfMemory
    }
}
