// The version of the calls: as a number, for a program that runs, and in a name of the archive's symbol table, for one that is built.
ghost use Rattle.std.specs.Prelude.{◌≡◌};
ghost use Rattle.hauklivo.specs.Version.{version};

// The version of the calls.
#[unsafe(no_mangle)]
pub extern "C" fn hauklivo_version() -> u32
    ensures { result ≡ version }
{
    hauklivo::version::hauklivo_version()
}

// The same, by a name that only an archive of this version has.
#[unsafe(no_mangle)]
pub extern "C" fn hauklivo_version_5() -> u32
    ensures { result ≡ version }
{
    hauklivo::version::hauklivo_version_5()
}
