//! Settings of points that need not be looked at while a bound is made to rise: those that cost no less than another one of the
//! same point, whatever the partners are. Nothing is promised of which these are.

mod costlier;
mod differences;
mod thinned;

pub use thinned::Thinned;
