// Lists the walk file on standard input: a line for each record, and a last one, on standard output.
#![tactic(auto)]

use input::{Stop, read_behind};
use std::io::{Error, Result, Write};
use walkfile::{LISTING_BYTES, list};

// One byte more than a file may have, so that a longer one shows.
const INPUT_BYTES: usize = 65537;

fn main(rt: HostRuntime) -> Result<()> {
    let mut file = [0u8; INPUT_BYTES];
    let input = read_behind(&mut rt.stdin(), &mut file, 0);
    if input.stop == Stop::Failed {
        return Err(Error::other("standard input cannot be read"));
    }
    let mut out = [0u8; LISTING_BYTES];
    let count = input.count;
    if let Some(end) = list(&file[..count], &mut out) {
        rt.stdout().write_all(&out[..end])?;
    }
    Ok(())
}
