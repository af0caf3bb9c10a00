// The version of the interface, so that a host can compare its header with the library that it was linked with.
ghost use Rattle.std.specs.Prelude.{◌≡◌};

// The number that PETALCHURN_VERSION has in the header: it rises with every change of the interface.
pub fn petalchurn_version() -> u64
    ensures { result ≡ 5 }
{
    5
}
