// Document 02, request 9: the keys in one place. A key part is named by its place in a list of octets and by how many keys it has; a key by
// its index there, counted from 0, or by its ID. Every function answers for every list: what lies past its end reads as 0.
#![tactic(auto)]

mod keys;

pub use keys::{
    ACTIVE, DEACTIVATED, PRE_ACTIVE, key_id_at, key_in_state, key_index, key_part_ok, key_state_at,
    key_state_place, key_under, part_size,
};
