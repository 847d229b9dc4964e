// The version of the exported form: its functions, numbers, codes and layouts.
#![tactic(auto)]

ghost use Rattle.std.specs.Prelude.{◌≡◌};
ghost use Rattle.abi_version.specs.Version.{abi_version_number};

// What both libraries tell, so that a host sees at start whether its declarations are theirs.
pub fn abi_version() -> u32
    ensures { result ≡ abi_version_number }
{
    1
}
