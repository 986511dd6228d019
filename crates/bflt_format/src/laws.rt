//! Laws on the definitions of the format, each the contract of a function that does nothing.

ghost use Rattle.bflt_format.specs.Laws.{TextsComeBack, SpellsComeBack, ComeBackSpells};

/// The values of a file without a fault are those of the text that is written for them, and that
/// text has no fault.
pub fn texts_come_back()
    ensures { TextsComeBack }
{}

/// The plain conditions `Spells` on values are exactly that their text says them and has no fault.
pub fn spells_come_back()
    ensures there { SpellsComeBack }
    ensures back { ComeBackSpells }
{}
