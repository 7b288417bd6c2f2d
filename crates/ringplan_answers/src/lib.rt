//! The program's jobs over bytes, with exit statuses. Only a check with workers starts threads.
#![tactic(auto)]

mod answer;
mod bundle;
mod input;
mod output;
mod replaying;
mod stating;

pub use answer::{Answer, answer_of, status_of};
pub use bundle::{
    answer_bytes, answer_check, check_bundle, check_bundle_by, make, migrate_bundle, plan_bundle,
    play_bundle,
};
pub use input::read_all;
pub use output::write_all;
pub use plan_cert::MAX_INPUT;
pub use replaying::replay_bundle;
pub use ring_script::{Kind, read_bundle};
pub use ringplan_request::Job;
pub use stating::{refusal_members, stated_of};
