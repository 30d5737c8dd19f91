// The version of the calls: as a number, for a program that runs, and in a name of the archive's symbol table, for one that is built.
ghost use Rattle.std.specs.Prelude.{◌≡◌};
ghost use Rattle.hauklivo.specs.Version.{version};

// The number is in the name below, too, in specs/Version.antt, include/hauklivo.h, rust/src/version.rs and rust/src/raw.rs.
const VERSION: u32 = 5;

// The version of the calls.
pub fn hauklivo_version() -> u32
    ensures { result ≡ version }
{
    VERSION
}

// The same, by a name that only an archive of this version has.
pub fn hauklivo_version_5() -> u32
    ensures { result ≡ version }
{
    VERSION
}
