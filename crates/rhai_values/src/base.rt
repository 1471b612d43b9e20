//! Values.

mod copy;
mod debug;
mod display;
mod environ;
pub mod hashable;
pub mod literal;
mod modes;
pub mod size;
mod type_name;
pub mod value;
