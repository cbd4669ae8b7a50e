//! A law of texts.
ghost use Rattle.goo_log_entry.specs.Text.{EntryTextsDiffer};

/// No two entries share a text.
pub fn entry_texts_differ()
    ensures { EntryTextsDiffer }
{}
