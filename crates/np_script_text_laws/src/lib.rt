//! What holds of the texts of all scripts, whatever they say.
#![tactic(auto)]

mod laws;

pub use laws::{
    lines_are_few, lines_are_judged, lines_go_on, one_refusal, one_say, refused_lines_end,
    refused_texts_are_no_scripts, skipped_lines_go_on, texts_can_be_completed,
    texts_have_their_lines,
};
