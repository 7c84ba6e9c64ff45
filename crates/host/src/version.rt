// The version of the library, for a host that holds it against the version of its header.
ghost use Rattle.std.specs.Prelude.{◌≡◌};
ghost use Rattle.host.specs.Version.{version};

const MAJOR: u32 = 0;

const MINOR: u32 = 1;

const PATCH: u32 = 0;

// The version as one number.
pub fn nqabelihu_version() -> u32
    ensures { result ≡ version }
{
    10000 * MAJOR + 100 * MINOR + PATCH
}
