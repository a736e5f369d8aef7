// The steps on a channel table that is known to be sound. Only proved code can take them: each caller shows `Sound` of the table that
// it lends.
pub mod giving;
pub mod leaving;
pub mod spawning;

pub use giving::give;
pub use leaving::leave;
pub use spawning::spawn;
