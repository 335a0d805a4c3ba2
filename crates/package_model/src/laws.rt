// Laws of packages: each is the contract of a function that does nothing.
ghost use Rattle.package_model.specs.Laws.{PackageLaw, PackageLoopsLaw, SeenListsLaw, ShownLaw};
ghost use Rattle.package_model.specs.TranslationLaws.{ConsultLaw, InsideLabelLaw, OneTranslationLaw, TranslationLaw};

/// The lists of the seen modules and of their productions are the only ones, so what a view shows is a function of the grammar and the view.
pub fn seen_lists_law()
    ensures { SeenListsLaw }
{}

/// Where the views of two grammars show the same, their full assignments agree place by place, and the same is reached along open routes.
pub fn shown_law()
    ensures { ShownLaw }
{}

/// The package of a grammar is well-formed, proper and strictly linear where the grammar is, and its default view is safe where the view is.
///
/// All that the view shows stands in it, so the same is reached in it, the same routes are open, and the same routes agree.
pub fn package_law()
    ensures { PackageLaw }
{}

/// The loops of a package are good, and they are the continuing steps of the modules that the view expands.
///
/// A cycle that the view expands only in part is cut: from its modules loop steps lead to one that is not expanded.
pub fn package_loops_law()
    ensures { PackageLoopsLaw }
{}

/// Bits have one translation over a package with good loops at most: they are inside as one label, outside or malformed.
pub fn one_translation_law()
    ensures { OneTranslationLaw }
{}

/// What is read to its end over a package with good loops is a label of the package's grammar, whatever the bits are.
pub fn inside_label_law()
    ensures { InsideLabelLaw }
{}

/// Each label of a grammar is outside over the package of a view exactly if it is hidden under the view, and otherwise inside, as the label of the package's grammar that tells the same by place.
pub fn translation_law()
    ensures { TranslationLaw }
{}

/// Two labels of a grammar have by the package of a safe view the verdict that they have under the view.
///
/// So a package answers without the grammar of which the labels are.
pub fn consult_law()
    ensures { ConsultLaw }
{}
