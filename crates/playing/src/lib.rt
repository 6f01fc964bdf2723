// Playing: finds pieces as read does and gives their codes to a doer.
#![tactic(auto)]

mod performing;

pub use performing::play;
