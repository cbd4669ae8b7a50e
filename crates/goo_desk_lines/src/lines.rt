//! The lines of an input.
ghost use Rattle.std.specs.Prelude.{◌≡◌, ◌==◌, ◌∷◌, position};
ghost use Rattle.std.specs.Iterator.{YieldsFirstRef, item_count};
ghost use Rattle.goo_desk_lines.specs.Lines.{lines_of, lines_left};

/// The place of the first line feed.
fn line_feed_at(text: &[u8]) -> Option<usize>
    ensures { result ≡ position (λ b. b == 10) text.now }
{
    text.iter().position(|byte| *byte == b'\n')
}

/// The first line of a text, and what follows its line feed.
fn split_line(text: &[u8]) -> (&[u8], Option<&[u8]>)
    ensures { lines_of text.now ≡ result.0.now ∷ lines_left result.1 }
{
    match line_feed_at(text) {
        Some(place) => (&text[..place], Some(&text[place + 1..])),
        None => (text, None),
    }
}

/// The lines of what is left of an input, without their line feeds. Where the input ends with a
/// line feed, an empty line comes last.
#[derive(Drop)]
pub struct Lines<'a>(pub Option<&'a [u8]>);

impl<'a> Iterator for Lines<'a> {
    type Item = &'a [u8];

    ghost next_gives = { YieldsFirstRef (λ s. lines_left s.0) };

    ghost remaining = { item_count (λ s. lines_left s.0) };

    fn next(&mut self) -> Option<&'a [u8]> {
        let (line, rest) = split_line(self.0?);
        self.0 = rest;
        Some(line)
    }
}
