// One step of a certificate. Of basic statements it knows only whether they are permitted and true, and of rules 6 to 28 their reply.
#![tactic(auto)]

pub mod reply;
pub mod step;
