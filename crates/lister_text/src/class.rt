// The class of a word.
ghost use Rattle.std.specs.Prelude.{◌≡◌};
ghost use Rattle.lister_text.specs.Class.{class_by, class_of};

use arm64_insn::add::Add;
use arm64_insn::adrp::Adrp;
use arm64_insn::ldst::LoadStore;

// A load or store with the bytes that it moves.
#[derive(Clone, Copy)]
pub enum Class {
    Adrp,
    Add,
    Load(u64),
    Store(u64),
    Other,
}

// The class by what each decoder answers.
#[tactic(auto, unfolding(util::specs::Choice::choose))]
fn class_by(adrp: Option<Adrp>, add: Option<Add>, ldst: Option<LoadStore>) -> Class
    ensures { result ≡ class_by adrp add ldst }
{
    if adrp.is_some() {
        return Class::Adrp;
    }
    if add.is_some() {
        return Class::Add;
    }
    match ldst {
        Some(l) if l.is_store => Class::Store(l.size),
        Some(l) => Class::Load(l.size),
        None => Class::Other,
    }
}

// What the hint decoders see in a word.
#[tactic(auto, unfolding(crate::specs::Class::class_of))]
pub fn class_of(insn: u32) -> Class
    ensures { result ≡ class_of insn }
{
    class_by(
        Adrp::decode(insn),
        Add::decode(insn),
        LoadStore::decode(insn),
    )
}
