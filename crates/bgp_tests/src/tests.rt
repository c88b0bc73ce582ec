//! What no clause says: octets made by hand, as speakers send them, with one fault and with two.
mod attributes;
mod framing;
mod opens;
mod paths;
mod prefix_fields;
mod sessions;
mod update_mistakes;
mod update_origins;
mod update_routes;
mod updates;
