ghost use Rattle.std.specs.Prelude.{◌≡◌};

/// The version of the library: 1,000,000 for each major one, 1,000 for each minor one, 1 for each patch.
pub const HLC_VERSION: u32 = 1_000_000;

/// The version of the library, as one number.
#[unsafe(no_mangle)]
pub extern "C" fn hlc_version() -> u32
    ensures { result ≡ HLC_VERSION }
{
    HLC_VERSION
}
