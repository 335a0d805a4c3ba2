// Words that are the names of items.
ghost use Rattle.std.specs.Prelude.{◌≡◌};
ghost use Rattle.cmd_explain.specs.Words.{is_item_name};

use name_text::split_item;

/// Whether a word is the name of an item. Cost: linear in the word. Takes no memory.
pub(crate) fn is_item(word: &str) -> bool
    ensures { result ≡ is_item_name word.now }
{
    split_item(word.as_bytes()).is_some()
}
