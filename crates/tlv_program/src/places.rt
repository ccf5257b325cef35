//! Where a program lies.
ghost use Rattle.std.specs.Prelude.{◌≡◌};
ghost use Rattle.tlv_program.specs.Places.{ends_in_built_place};

/// Whether this is the path of `tlvdump-show` beside its sources: whether it ends in
/// `/crates/tlvdump_show/out/tlvdump_show`, where the build puts the program.
pub fn is_beside_sources(program: &str) -> bool
    ensures { result ≡ ends_in_built_place program.now }
{
    program
        .as_bytes()
        .ends_with(b"/crates/tlvdump_show/out/tlvdump_show")
}
