// The words of `words`.
ghost use Rattle.std.specs.Prelude.{◌≡◌, Some, None, map, MatchOption};
ghost use Rattle.cmd_words.specs.Words.{command_of};
ghost use Rattle.cmd_words.specs.Does.{meant};

use crate::words::WordsFiles;

/// The files that the words name, if they are `words` and five files.
pub fn command_of<'w>(words: &'w [&'w str]) -> Option<WordsFiles<'w>>
    ensures { MatchOption result (command_of (map (λ w. w.now) words.now) ≡ None) (λ f. command_of (map (λ w. w.now) words.now) ≡ Some (meant f)) }
{
    match words {
        [command, spec, view, automaton, labels, queries] => {
            if *command == "words" {
                Some(WordsFiles {
                    spec,
                    view,
                    automaton,
                    labels,
                    queries,
                })
            } else {
                None
            }
        }
        _ => None,
    }
}
