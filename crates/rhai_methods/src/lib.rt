//! Methods: what a name means on the value that it is called on, once the arguments are there. Ports
//! upstream's `make_method_call`. The contracts cite the machine's specs/language/Methods.antt and the
//! crate's own specs/.
#![tactic(auto)]

pub mod calls;
pub mod copies;
pub mod methods;
pub mod target;
pub mod words;
