// Two files and the digits of two labels, as words.
use label_words::HexWord;

/// The names of the files that `decide` reads, in this order, and the hexadecimal digits of two labels.
#[derive(Clone, Copy)]
pub struct DecideWords<'w> {
    pub spec: &'w str,
    pub view: &'w str,
    pub first: HexWord<'w>,
    pub second: HexWord<'w>,
}
