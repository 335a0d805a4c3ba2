// A law of what is read over a package: the contract of a function that does nothing.
ghost use Rattle.wf_translate.specs.Laws.{SomeTranslationLaw};

/// Bits have a translation over a package with good loops: they are inside, outside or malformed.
pub fn some_translation_law()
    ensures { SomeTranslationLaw }
{}
