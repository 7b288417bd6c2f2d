//! Certificates, which an untrusted planner writes for the checker, and the front of a bundle: a ring, a plan and a
//! certificate.
#![tactic(auto)]

mod cert;
mod chains;
mod front;
mod limits;
mod lines;
mod plain;
mod reading;
mod writing;

pub use cert::{Cert, Chain};
pub use chains::Chains;
pub use front::{Front, read_front_section};
pub use limits::MAX_INPUT;
pub use reading::{read_cert, read_cert_section};
pub use writing::write_cert;
