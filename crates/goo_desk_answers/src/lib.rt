//! The HTTP desk: what the bytes of a request are answered, and what that does to the registry.
//!
//! The response is a function of the bytes and of what the registry knows: ten cases, the first of
//! which that holds answers. Four go by the head of the request (`goo_desk_heads`) and one by its
//! body having come; four by its target, its method and its caller (`handling`); the last is the
//! route's own answer (`apply`, `import`, `show`).
#![tactic(auto)]

pub mod answered;
mod apply;
mod dispatch;
mod handling;
mod import;
mod show;

pub use dispatch::{answer, answer_by_routes};
pub use handling::Handling;
