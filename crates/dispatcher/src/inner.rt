// The calls on a channel table that is known to be sound and, where an opening looks a tag up, with a dispatcher that keeps making's rules.
// Only proved code can call them: each caller shows it of what it lends.
pub mod closing;
pub mod opening;
pub mod places;
pub mod slots;

pub use closing::close;
pub use opening::open;
pub use slots::{park, receive, send};
