// Document 01, 'The image': the body of an entry, and the layout by which a version of the image has it. A body is named by the version by
// which it is read and by its place in a list of octets. Every function answers for every list: what lies past its end reads as 0.
#![tactic(auto)]

mod body;
mod layout;

pub use body::{
    KEY_OFFICE, KEYED, LAST_DESK, OPERATIONAL, UNKEYED, body_inside_ok, body_ok, channel_of,
    code_of, direction_of, holds_set, key_id_of, kind_in, map_of, mask_of, owner_of, service_of,
    spacecraft_of, state_of, window_fits, window_of,
};
pub use layout::{Layout, STATE, WINDOW, layout_of, version_ok};
