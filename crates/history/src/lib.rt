// History: at most 100 entries in a lent buffer of 25,600 bytes, the state test, adding a text, forgetting an entry, and the steps that the arrow keys take.
#![tactic(auto)]

mod adding;
mod forgetting;
mod saving;
mod slots;
mod stepping;
mod testing;

pub use adding::{AddRefusal, Adding, add_command, add_tested, offer};
pub use forgetting::{ForgetRefusal, Forgetting, forget, forget_tested};
pub use stepping::{History, Step};
pub use testing::is_good;
