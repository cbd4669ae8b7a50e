//! The commands, by their words.
ghost use Rattle.std.specs.Prelude.{◌≡◌};
ghost use Rattle.goo_cli.specs.Verbs.{verb_in};

/// A command of the program.
#[derive(Debug, Clone, Copy, PartialEq, Eq)]
pub enum Verb {
    /// `init`
    Init,
    /// `run`
    Run,
    /// `declare`
    Declare,
    /// `statement`
    Statement,
    /// `audit`
    Audit,
    /// `serve`
    Serve,
}

/// The command of this word.
pub fn verb_in(word: &str) -> Option<Verb>
    ensures { result ≡ verb_in word.now }
{
    let word = word.as_bytes();
    if word == b"init".as_slice() {
        Some(Verb::Init)
    } else if word == b"run".as_slice() {
        Some(Verb::Run)
    } else if word == b"declare".as_slice() {
        Some(Verb::Declare)
    } else if word == b"statement".as_slice() {
        Some(Verb::Statement)
    } else if word == b"audit".as_slice() {
        Some(Verb::Audit)
    } else if word == b"serve".as_slice() {
        Some(Verb::Serve)
    } else {
        None
    }
}
