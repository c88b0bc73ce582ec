//! How the tests read the body of an UPDATE.
use as_path::Width;
use bgp_update::{UpdateFault, UpdateView, read_update};
use std::process::Abort;

/// What a body says, or its first fault.
pub fn read<'a>(
    rt: &impl Abort,
    body: &'a [u8],
    width: Width,
    v6: bool,
) -> Result<UpdateView<'a>, UpdateFault> {
    assert!(rt; body.len() >= 4);
    read_update(body, width, v6)
}
