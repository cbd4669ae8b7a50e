//! Who is told of an adoption.

/// Who wants to know that the tables of a registry are about to be written anew.
pub trait AdoptionObserver {
    /// It begins: the rows keep the rules, and nothing is changed yet.
    fn adopts(&mut self);

    /// The tables that `ANALYZE` made are about to be taken away: the rows keep the rules, and nothing
    /// is changed yet.
    fn drops_statistics(&mut self);
}
