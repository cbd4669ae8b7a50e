//! The ends of a text.
ghost use Rattle.std.specs.Prelude.{◌≡◌};
ghost use Rattle.goo_types_forms.specs.Edges.{is_trimmed};

/// Whether neither the first nor the last byte is a space.
pub fn has_no_space_at_an_end(text: &[u8]) -> bool
    ensures { result ≡ is_trimmed text.now }
{
    text.first() != Some(&b' ') && text.last() != Some(&b' ')
}
