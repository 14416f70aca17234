//! Places in the bytes of the caller.

ghost use Rattle.std.specs.Prelude.{◌≡◌};
ghost use Rattle.sd_call.specs.Places.{nowhere};

/// Where something lies: `struct sdtool_place` of the header.
#[repr(C)]
#[derive(Clone, Copy)]
pub struct Place {
    /// Its first byte.
    pub offset: usize,
    /// How many bytes it has; 0 if it is not there.
    pub size: usize,
}

/// The place of what is not there.
pub fn nowhere() -> Place
    ensures { result ≡ nowhere }
{
    Place { offset: 0, size: 0 }
}
