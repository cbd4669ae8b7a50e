//! Worked cases by topic, in tables that tools/gate/cases-as-tests writes from cases/.

mod carriers;
mod correction_limits;
mod corrections;
mod deadlines;
mod declarations;
mod exchange;
mod keys_and_bodies;
mod moves;
mod notices;
mod refusals;

pub use carriers::CARRIERS;
pub use correction_limits::CORRECTION_LIMITS;
pub use corrections::CORRECTIONS;
pub use deadlines::DEADLINES;
pub use declarations::DECLARATIONS;
pub use exchange::EXCHANGE;
pub use keys_and_bodies::KEYS_AND_BODIES;
pub use moves::MOVES;
pub use notices::NOTICES;
pub use refusals::REFUSALS;
