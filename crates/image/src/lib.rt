// Document 01, 'The image', and document 02, request 9: a list of octets that the caller lends. An entry is named by its index in the contents, counted from 0. Every
// function answers for every image: what lies past its end reads as 0.
#![tactic(auto)]

mod image;

pub use image::{
    LONGEST_IMAGE, body_at, body_place, count_of, has_part, image_ok, key_count, key_id_in, key_in,
    key_of, key_with, laid_out, mark_at, mark_in, mark_place, part_at, position_of, spi_of,
    version_of,
};
