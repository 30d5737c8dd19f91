// Pages of 4,096 bytes, and what ADRP, ADR and literal loads reach.
ghost use Rattle.std.specs.Prelude.{◌≡◌};
ghost use Rattle.arm64_insn.specs.Page.{page_of};
ghost use Rattle.arm64_insn.specs.Reach.{page_offset, adrp_reaches, within1mb};

// The page of an address.
pub fn page(val: u64) -> u64
    ensures { result ≡ page_of val }
{
    val & !0xfff
}

// The ADRP immediate that reaches hi's page from lo's page, in its place in the word.
pub fn page_offset(hi: u64, lo: u64) -> u32
    ensures { result ≡ page_offset hi lo }
{
    let imm = (util::wrapping_sub(page(hi), page(lo)) / 0x1000 % 0x20_0000) as u32;
    (imm % 4) * 0x2000_0000 + (imm / 4) * 0x20
}

// Whether an ADRP at lo reaches hi's page.
pub fn adrp_reaches(hi: u64, lo: u64) -> bool
    ensures { result ≡ adrp_reaches hi lo }
{
    util::in_range(
        util::wrapping_sub(page(hi), page(lo)),
        0x1_0000_0000,
        0x1_0000_0000,
    )
}

// Whether an ADR or a literal load at `from` reaches `to`, by ld64's strict test.
pub fn within_1mb(from: u64, to: u64) -> bool
    ensures { result ≡ within1mb from to }
{
    util::in_range(util::wrapping_sub(to, from), 0xf_ffff, 0x10_0000)
}
