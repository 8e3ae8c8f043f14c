//! What whole runs keep in which hosts depart from their programs. Nothing is computed here.
#![tactic(auto)]

mod integrity_backends;
mod integrity_checks;
mod integrity_endorsed;
mod laws;

pub use integrity_backends::{
    commitments_bind, copies_stay_right, digests_tell_their_words, keepers_run_together,
    one_word_to_all_is_right, shares_are_kept, two_words_for_one,
};
pub use integrity_checks::{
    copies_are_compared, hosts_get_what_they_may, openings_bind, shown_copies_are_equal, steps_hear,
};
pub use integrity_endorsed::{own_words_make_the_run, words_decide_what_is_trusted};
pub use laws::{
    attackers_choose_what_is_endorsed, one_word_is_printed_by_both, stopped_runs_are_explained,
};
