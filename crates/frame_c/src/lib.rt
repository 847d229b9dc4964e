// What can be told of a frame's bytes alone, without a driver service, as C functions: docs/LAYOUTS.md.
#![tactic(auto)]

ghost use Rattle.std.specs.Prelude.{◌≡◌};
ghost use Rattle.abi_version.specs.Version.{abi_version_number};
ghost use Rattle.info_bytes.specs.Info.{InfoCalled};
ghost use Rattle.fcs.specs.Fcs.{fcs_of};
ghost use Rattle.fcs.specs.Check.{check_of, check_number};

#[unsafe(no_mangle)]
pub extern "C" fn widosha_frame_abi_version() -> u32
    ensures { result ≡ abi_version_number }
{
    abi_version::abi_version()
}

#[unsafe(no_mangle)]
pub extern "C" fn widosha_preliminary_frame_info(frame: &[u8], info: &mut [u8]) -> u8
    ensures { InfoCalled frame.now info.old result info.new }
{
    refusals::number(info_bytes::preliminary_frame_info(frame, info))
}

#[unsafe(no_mangle)]
pub extern "C" fn widosha_fcs(bytes: &[u8]) -> u16
    ensures { result ≡ fcs_of bytes.now }
{
    fcs::fcs(bytes)
}

#[unsafe(no_mangle)]
pub extern "C" fn widosha_check_fcs(frame: &[u8]) -> u8
    ensures { result ≡ check_number (check_of frame.now) }
{
    fcs::check_number(fcs::check_fcs(frame))
}
