// The names of queries, looked up before the queries are answered.
use crate::query::Query;
use label_file::{GUESSES, Guesses, Store};
use name_text::cut_item;

/// The query of the first line, and the lines behind it; None where that line is no query, or has no newline.
fn cut_query(text: &[u8]) -> Option<(Query<'_>, &[u8])> {
    let (first, behind) = cut_item(text)?;
    let [b' ', rest @ ..] = behind else {
        return None;
    };
    let (second, behind) = cut_item(rest)?;
    let [b'\n', rest @ ..] = behind else {
        return None;
    };
    Some((Query { first, second }, rest))
}

/// The names of the queries of the first lines, for as many as there is room, and how many they are.
fn names_in<'t>(text: &'t [u8], names: &mut [&'t [u8]; GUESSES]) -> usize {
    let mut left = text;
    for pair in 0..GUESSES / 2 {
        let Some((query, rest)) = cut_query(left) else {
            return 2 * pair;
        };
        names[2 * pair] = query.first;
        names[2 * pair + 1] = query.second;
        left = rest;
    }
    GUESSES
}

/// Guesses the entries of the queries of the first lines, where all that were guessed before are taken.
pub fn look_ahead(store: &Store<'_>, guesses: &mut Guesses, text: &[u8]) {
    if !guesses.are_taken() {
        return;
    }
    let none: &[u8] = &[];
    let mut names = [none; GUESSES];
    let count = names_in(text, &mut names);
    guesses.make(store, &names, count);
}
