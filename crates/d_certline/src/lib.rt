//! What a certificate is: its lines, which line may stand where, the text of a whole one, and the fault of bytes that are none.
//!
//! Writer and reader stand on these definitions and share no code. Nothing here takes memory, and little of it runs: a `Place` is what a
//! reader keeps of the lines before, and an `Event` is what it tells of the lines that it took.
#![tactic(auto)]

mod event;
mod fault;
mod kind;
mod law;
mod place;

pub use event::Event;
pub use fault::CertFault;
pub use kind::Kind;
pub use law::{
    faultless_are_certificates, one_certificate, one_event, one_fault, one_line, wholes_are_printed,
};
pub use place::{Place, Stage};
